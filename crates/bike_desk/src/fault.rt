//! Why a call of a desk failed.

use std::alloc::AllocError;
use thiserror::Error;

/// Why a call of a desk failed.
#[derive(Clone, Copy, Debug, PartialEq, Eq, Error)]
pub enum DeskFault {
    /// Memory was refused before anything changed: the desk goes on as it was.
    #[error("out of memory")]
    NoMemory,
    /// The store failed, or a stored row can't be. The desk is stopped; what is stored stands for the
    /// operator before or after the request.
    #[error("store failed")]
    StoreFailed,
    /// An earlier call had stopped the desk. Nothing changed.
    #[error("the desk was stopped before")]
    Stopped,
}

impl From<AllocError> for DeskFault {
    ghost use Rattle.std.specs.Prelude.{◌≡◌};
    ghost use Rattle.bike_desk.specs.declared.fault.DeskFault.TheVariants.{NoMemory};

    ghost from_gives = { λ _ fault. fault ≡ NoMemory };

    fn from(_: AllocError) -> DeskFault {
        DeskFault::NoMemory
    }
}
