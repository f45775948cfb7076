//! Why a line wasn't written whole.

use bike_stream::WriteFault;
use std::alloc::AllocError;
use thiserror::Error;

/// Why a line wasn't written whole.
#[derive(Clone, Copy, Debug, PartialEq, Eq, Error)]
pub enum LineFault {
    /// A write failed: a front of the line is written, and not all.
    #[error("write failed")]
    Write,
    /// Memory for the line's text was refused: nothing is written.
    #[error("out of memory")]
    NoMemory,
}

impl From<WriteFault> for LineFault {
    ghost use Rattle.std.specs.Prelude.{◌≡◌};
    ghost use Rattle.bike_day_texts.specs.declared.fault.LineFault.TheVariants.{Write};

    ghost from_gives = { λ _ fault. fault ≡ Write };

    fn from(_: WriteFault) -> LineFault {
        LineFault::Write
    }
}

impl From<AllocError> for LineFault {
    ghost use Rattle.std.specs.Prelude.{◌≡◌};
    ghost use Rattle.bike_day_texts.specs.declared.fault.LineFault.TheVariants.{NoMemory};

    ghost from_gives = { λ _ fault. fault ≡ NoMemory };

    fn from(_: AllocError) -> LineFault {
        LineFault::NoMemory
    }
}
