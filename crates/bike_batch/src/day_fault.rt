//! Why a day's table wasn't written whole.

use bike_day_texts::LineFault;
use bike_desk::DeskFault;
use bike_fixed::DayFault;
use thiserror::Error;

/// Why a day's table wasn't written whole.
#[derive(Clone, Copy, Debug, PartialEq, Eq, Error)]
pub enum DayTableFault {
    /// The date and the zone name no day that has bounds, for this reason: nothing was written.
    #[error("no such day")]
    Day(DayFault),
    /// A write failed. The desk goes on.
    #[error("write failed")]
    Write,
    /// The desk failed, as this tells, or memory for a line was refused.
    #[error("{0}")]
    Desk(DeskFault),
}

impl From<DayFault> for DayTableFault {
    ghost use Rattle.std.specs.Prelude.{◌≡◌};
    ghost use Rattle.bike_batch.specs.declared.day_fault.DayTableFault.TheVariants.{Day};

    ghost from_gives = { λ day fault. fault ≡ Day day };

    fn from(fault: DayFault) -> DayTableFault {
        DayTableFault::Day(fault)
    }
}

impl From<LineFault> for DayTableFault {
    ghost use Rattle.std.specs.Prelude.{◌≡◌};
    ghost use Rattle.bike_batch.specs.DayLines.{line_fault};

    ghost from_gives = { λ line fault. fault ≡ line_fault line };

    fn from(fault: LineFault) -> DayTableFault {
        match fault {
            LineFault::Write => DayTableFault::Write,
            LineFault::NoMemory => DayTableFault::Desk(DeskFault::NoMemory),
        }
    }
}

impl From<DeskFault> for DayTableFault {
    ghost use Rattle.std.specs.Prelude.{◌≡◌};
    ghost use Rattle.bike_batch.specs.declared.day_fault.DayTableFault.TheVariants.{Desk};

    ghost from_gives = { λ desk fault. fault ≡ Desk desk };

    fn from(fault: DeskFault) -> DayTableFault {
        DayTableFault::Desk(fault)
    }
}
