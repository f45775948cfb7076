//! What may have names in further languages.

ghost use Rattle.std.specs.Prelude.{◌≡◌, List, ℕ, Some};
ghost use Rattle.bike_fields.specs.NameKinds.{kind_text, kind_of};
ghost use Rattle.bike_fields.specs.declared.name_kind.NameKind.{NameKind as NameKindValue};

/// What has a text that is told in further languages. A plan's name and its description are two.
#[derive(Clone, Copy, Drop)]
pub enum NameKind {
    /// The system's name.
    System,
    /// A station's name.
    Station,
    /// A vehicle type's name.
    Type,
    /// A pricing plan's name.
    Plan,
    /// A pricing plan's description.
    Description,
    /// A region's name.
    Region,
}

impl NameKind {
    /// Its word in commands and in the table of names.
    pub fn as_str(self) -> &'static str
        ensures { result.now ≡ kind_text self }
    {
        match self {
            NameKind::System => "system",
            NameKind::Station => "station",
            NameKind::Type => "type",
            NameKind::Plan => "plan",
            NameKind::Description => "description",
            NameKind::Region => "region",
        }
    }

    /// The kind of that word.
    #[tactic(auto, unfolding(crate::specs::NameKinds::kind_of))]
    pub fn read(text: &str) -> Option<NameKind>
        ensures { result ≡ kind_of text.now }
    {
        match text {
            "system" => Some(NameKind::System),
            "station" => Some(NameKind::Station),
            "type" => Some(NameKind::Type),
            "plan" => Some(NameKind::Plan),
            "description" => Some(NameKind::Description),
            "region" => Some(NameKind::Region),
            _ => None,
        }
    }
}

/// The laws of these words: each is read exactly from its own text.
pub fn name_kind_laws()
    ensures sound { (text : List ℕ) (kind : NameKindValue) → kind_of text ≡ Some kind → text ≡ kind_text kind }
    ensures full { (kind : NameKindValue) → kind_of (kind_text kind) ≡ Some kind }
{}
