//! Names in further languages.

ghost use Rattle.std.specs.Prelude.{◌≡◌};
ghost use Rattle.bike_catalogue.specs.Rows.{more_name_of_fields};

use bike_fields::{Language, Name};
use std::marker::Model;

/// A text in a language that isn't the system's.
#[derive(Drop)]
pub struct MoreName {
    language: Language,
    name: Name,
}

impl Model for MoreName {
    ghost use Rattle.bike_catalogue.specs.Rows.{MoreNameRow};

    ghost Value = { MoreNameRow };

    ghost view = { λ a. record { language = a.language; name = a.name } };
}

impl MoreName {
    /// The text in the language.
    pub fn from_fields(language: Language, name: Name) -> MoreName
        ensures { result ≡ more_name_of_fields language name }
    {
        MoreName { language, name }
    }

    /// The language.
    pub fn language(&self) -> &Language
        ensures { result.now ≡ self.now.language }
    {
        &self.language
    }

    /// The text.
    pub fn name(&self) -> &Name
        ensures { result.now ≡ self.now.name }
    {
        &self.name
    }
}
