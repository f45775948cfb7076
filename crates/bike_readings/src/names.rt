//! The rows of names in further languages.

ghost use Rattle.std.specs.Prelude.{◌≡◌, option_map};
ghost use Rattle.bike_readings.specs.Readings.{name_read};
ghost use Rattle.bike_readings.specs.Views.{name_of};

use crate::columns::{ident_in, language_in, name_in, named_kind_in};
use crate::part::Part;
use bike_book::columns::more_names;
use bike_fields::NameKind;

/// A row of `more_names`.
#[derive(Clone, Copy)]
pub struct StoredName<'a> {
    /// What kind of thing has the name.
    pub kind: NameKind,
    /// The identifier of what has it.
    pub id: &'a str,
    pub language: &'a str,
    pub name: &'a str,
}

/// What a row of `more_names` spells.
pub fn read_name(part: Part<'_>) -> Option<StoredName<'_>>
    ensures { option_map name_of result ≡ name_read part.entry }
{
    if part.column_count() != more_names::COLUMNS {
        return None;
    }
    let kind = named_kind_in(&part, more_names::KIND)?;
    let id = ident_in(&part, more_names::ID)?;
    let language = language_in(&part, more_names::LANGUAGE)?;
    let name = name_in(&part, more_names::NAME)?;
    Some(StoredName {
        kind,
        id,
        language,
        name,
    })
}
