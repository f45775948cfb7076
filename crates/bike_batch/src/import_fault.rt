//! Why an import ended early.

use bike_commands::Refusal;
use bike_desk::DeskFault;
use std::alloc::AllocError;
use thiserror::Error;

/// Why an import ended before its table did. The rows before that are served, and stay.
#[derive(Clone, Copy, Debug, PartialEq, Eq, Error)]
pub enum ImportFault {
    /// The first record isn't the header, or there is none; nothing was served.
    #[error("bad header")]
    BadHeader,
    /// The row of this number hasn't five fields, or isn't UTF-8.
    #[error("row {0} unreadable")]
    Unreadable(u64),
    /// The row of this number is refused.
    #[error("row {0} {name}", name = .1.name())]
    Row(u64, Refusal),
    /// The input failed, takes more than 1,000,000 reads, or has a record that is too long.
    #[error("read failed")]
    Read,
    /// The table has 1,000,000 rows or more; so many are served.
    #[error("too many rows")]
    TooManyRows,
    /// The desk failed at a row, or memory for the import was refused.
    #[error("{0}")]
    Desk(DeskFault),
}

impl From<DeskFault> for ImportFault {
    ghost use Rattle.std.specs.Prelude.{◌≡◌};
    ghost use Rattle.bike_batch.specs.declared.import_fault.ImportFault.TheVariants.{Desk};

    ghost from_gives = { λ fault told. told ≡ Desk fault };

    fn from(fault: DeskFault) -> ImportFault {
        ImportFault::Desk(fault)
    }
}

impl From<AllocError> for ImportFault {
    ghost use Rattle.std.specs.Prelude.{◌≡◌};
    ghost use Rattle.bike_desk.specs.declared.fault.DeskFault.TheVariants.{NoMemory};
    ghost use Rattle.bike_batch.specs.declared.import_fault.ImportFault.TheVariants.{Desk};

    ghost from_gives = { λ _ fault. fault ≡ Desk NoMemory };

    fn from(_: AllocError) -> ImportFault {
        ImportFault::Desk(DeskFault::NoMemory)
    }
}
