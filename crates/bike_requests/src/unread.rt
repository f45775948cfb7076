//! Why a text isn't read.

ghost use Rattle.std.specs.Prelude.{◌≡◌, Option};
ghost use Rattle.bike_fields.specs.Reads.{IsReadAs};
ghost use Rattle.bike_requests.specs.Unread.{IsReading};
ghost use Rattle.bike_requests.specs.declared.unread.Unread.TheVariants.{NoMemory};

use std::alloc::AllocError;

/// Why a text isn't read.
#[derive(Clone, Copy, Debug)]
pub enum Unread {
    /// The word or a field has none of its values or is missing, or something is left behind the last field.
    BadField,
    /// Memory was refused.
    NoMemory,
}

impl From<AllocError> for Unread {
    ghost from_gives = { λ _ unread. unread ≡ NoMemory };

    fn from(_: AllocError) -> Unread {
        Unread::NoMemory
    }
}

/// What was read, or none for a bad field.
pub fn none_if_bad<T>(outcome: Result<T, Unread>) -> Result<Option<T>, AllocError>
    ensures { (read : Option T) → IsReading read outcome → IsReadAs read result }
{
    match outcome {
        Ok(value) => Ok(Some(value)),
        Err(Unread::BadField) => Ok(None),
        Err(Unread::NoMemory) => Err(AllocError),
    }
}
