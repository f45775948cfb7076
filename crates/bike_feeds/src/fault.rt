//! Why a feed wasn't published whole.

use bike_desk::DeskFault;
use bike_stream::WriteFault;
use thiserror::Error;

/// Why a feed wasn't published whole.
#[derive(Clone, Copy, Debug, PartialEq, Eq, Error)]
pub enum FeedFault {
    /// No system is set, so there is nothing to publish: nothing was written.
    #[error("system missing")]
    SystemMissing,
    /// A write failed. The desk goes on.
    #[error("write failed")]
    Write,
    /// The desk failed, as this tells.
    #[error("{0}")]
    Desk(DeskFault),
}

impl From<WriteFault> for FeedFault {
    ghost use Rattle.std.specs.Prelude.{◌≡◌};
    ghost use Rattle.bike_feeds.specs.declared.fault.FeedFault.TheVariants.{Write};

    ghost from_gives = { λ _ fault. fault ≡ Write };

    fn from(_: WriteFault) -> FeedFault {
        FeedFault::Write
    }
}

impl From<DeskFault> for FeedFault {
    ghost use Rattle.std.specs.Prelude.{◌≡◌};
    ghost use Rattle.bike_feeds.specs.declared.fault.FeedFault.TheVariants.{Desk};

    ghost from_gives = { λ desk fault. fault ≡ Desk desk };

    fn from(fault: DeskFault) -> FeedFault {
        FeedFault::Desk(fault)
    }
}
