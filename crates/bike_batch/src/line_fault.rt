//! Why a run over lines ended early.

use bike_desk::DeskFault;
use bike_stream::{ReadFault, WriteFault};
use std::alloc::AllocError;
use thiserror::Error;

/// Why a run over lines ended before its input did. The lines before the one at which it ended are answered.
#[derive(Clone, Copy, Debug, PartialEq, Eq, Error)]
pub enum LinesFault {
    /// The input failed.
    #[error("read failed")]
    Read,
    /// The input gave its bytes in more than 1,000,000,000 reads.
    #[error("too many reads")]
    TooManyReads,
    /// The output failed: of the line's answer a front is written, and not all.
    #[error("write failed")]
    Write,
    /// The desk failed at the line, which has no answer; or memory for the run was refused before the first line.
    #[error("{0}")]
    Desk(DeskFault),
}

impl From<AllocError> for LinesFault {
    ghost use Rattle.std.specs.Prelude.{◌≡◌};
    ghost use Rattle.bike_desk.specs.declared.fault.DeskFault.TheVariants.{NoMemory};
    ghost use Rattle.bike_batch.specs.declared.line_fault.LinesFault.TheVariants.{Desk};

    ghost from_gives = { λ _ fault. fault ≡ Desk NoMemory };

    fn from(_: AllocError) -> LinesFault {
        LinesFault::Desk(DeskFault::NoMemory)
    }
}

impl From<ReadFault> for LinesFault {
    ghost use Rattle.std.specs.Prelude.{◌≡◌};
    ghost use Rattle.bike_batch.specs.Faults.{read_fault};

    ghost from_gives = { λ fault told. told ≡ read_fault fault };

    fn from(fault: ReadFault) -> LinesFault {
        match fault {
            ReadFault::Failed => LinesFault::Read,
            ReadFault::TooMany => LinesFault::TooManyReads,
        }
    }
}

impl From<WriteFault> for LinesFault {
    ghost use Rattle.std.specs.Prelude.{◌≡◌};
    ghost use Rattle.bike_batch.specs.declared.line_fault.LinesFault.TheVariants.{Write};

    ghost from_gives = { λ _ fault. fault ≡ Write };

    fn from(_: WriteFault) -> LinesFault {
        LinesFault::Write
    }
}

impl From<DeskFault> for LinesFault {
    ghost use Rattle.std.specs.Prelude.{◌≡◌};
    ghost use Rattle.bike_batch.specs.declared.line_fault.LinesFault.TheVariants.{Desk};

    ghost from_gives = { λ fault told. told ≡ Desk fault };

    fn from(fault: DeskFault) -> LinesFault {
        LinesFault::Desk(fault)
    }
}
