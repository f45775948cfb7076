//! Why a record couldn't be made.

ghost use Rattle.std.specs.Prelude.{◌≡◌};
ghost use Rattle.bike_fields.specs.declared.fault.FieldFault.TheVariants.{NoMemory};

use std::alloc::{AllocError, AllocFailed};

/// What a field must keep, in the order in which it is tested.
#[derive(Debug, Clone, Copy, PartialEq, Eq, Drop)]
pub enum Bound {
    /// How many bytes, or how many items.
    Length,
    /// Which bytes.
    Charset,
    /// From where to where a number lies.
    Range,
    /// That an end comes after its start.
    Order,
}

/// A field of a record, by its name in commands.
#[derive(Debug, Clone, Copy, PartialEq, Eq, Drop)]
pub enum Field {
    SystemId,
    Language,
    Name,
    OpeningHours,
    FeedContactEmail,
    Timezone,
    Currency,
    BaseUrl,
    Ttl,
    Plan,
    Price,
    Description,
    Segments,
    Start,
    Rate,
    Interval,
    End,
    TypeId,
    MaxRange,
    Station,
    Lat,
    Lon,
    Docks,
    Region,
    Key,
    Caller,
}

/// The first bad field of a record with the first bound that it breaks, or a want of memory.
#[derive(Debug, Clone, Copy, PartialEq, Eq, Drop)]
pub enum FieldFault {
    /// The field breaks the bound; the fields before it keep theirs.
    Broken { field: Field, bound: Bound },
    /// Memory was refused.
    NoMemory,
}

impl From<AllocError> for FieldFault {
    ghost from_gives = { λ _ e. e ≡ NoMemory };

    fn from(_e: AllocError) -> FieldFault {
        FieldFault::NoMemory
    }
}

impl<T: Drop> From<AllocFailed<T>> for FieldFault {
    ghost from_gives = { λ _ e. e ≡ NoMemory };

    fn from(_e: AllocFailed<T>) -> FieldFault {
        FieldFault::NoMemory
    }
}
