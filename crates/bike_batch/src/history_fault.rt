//! Why the history wasn't written whole.

use bike_day_texts::LineFault;
use bike_desk::DeskFault;
use thiserror::Error;

/// Why the history wasn't written whole.
#[derive(Clone, Copy, Debug, PartialEq, Eq, Error)]
pub enum HistoryFault {
    /// A write failed. The desk goes on.
    #[error("write failed")]
    Write,
    /// The desk failed, as this tells, or memory for a page's lines was refused.
    #[error("{0}")]
    Desk(DeskFault),
}

impl From<LineFault> for HistoryFault {
    ghost use Rattle.std.specs.Prelude.{◌≡◌};
    ghost use Rattle.bike_batch.specs.HistoryFaults.{page_fault};

    ghost from_gives = { λ line fault. fault ≡ page_fault line };

    fn from(fault: LineFault) -> HistoryFault {
        match fault {
            LineFault::Write => HistoryFault::Write,
            LineFault::NoMemory => HistoryFault::Desk(DeskFault::NoMemory),
        }
    }
}

impl From<DeskFault> for HistoryFault {
    ghost use Rattle.std.specs.Prelude.{◌≡◌};
    ghost use Rattle.bike_batch.specs.declared.history_fault.HistoryFault.TheVariants.{Desk};

    ghost from_gives = { λ desk fault. fault ≡ Desk desk };

    fn from(fault: DeskFault) -> HistoryFault {
        HistoryFault::Desk(fault)
    }
}
