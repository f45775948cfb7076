//! A view, and the docks of a station that were read for it.

ghost use Rattle.std.specs.Prelude.{◌≡◌, IfOk, None};
ghost use Rattle.bike_views.specs.ViewAndDocks.{IsPlain};

use bike_fields::Ident;
use bike_fleet_reads::StationNumbers;
use bike_operator::View;
use bike_schema::StatementFault;
use std::alloc::Global;

/// Whether a dock has a row.
#[derive(Clone, Copy)]
pub struct DockListing {
    /// The dock's number.
    pub dock: u32,
    /// Whether it has a row.
    pub is_listed: bool,
}

/// What the tables tell of a station's docks, as far as it was read.
#[derive(Drop)]
pub struct StationDocks {
    /// The station.
    pub station: Ident,
    /// How many of its docks are available and how many are broken, and its bicycles by type, where there is such a
    /// station.
    pub numbers: Option<StationNumbers>,
    /// Whether one of its docks has a row, where that was read.
    pub listing: Option<DockListing>,
}

impl StationDocks {
    /// What was read of the station's docks. `NoMemory` where its identifier finds no room.
    pub(crate) fn new(
        alloc: Global,
        station: &Ident,
        numbers: Option<StationNumbers>,
        listing: Option<DockListing>,
    ) -> Result<StationDocks, StatementFault>
        ensures { IfOk result (λ docks.
            docks ≡ record { station = station.now; numbers = numbers; listing = listing }) }
    {
        let station = station.try_clone(alloc)?;
        Ok(StationDocks {
            station,
            numbers,
            listing,
        })
    }
}

/// The view for a command, and the docks of the station whose row was read for it. So what is stored of those docks
/// isn't read again.
#[derive(Drop)]
pub struct ViewAndDocks {
    /// The view.
    pub view: View,
    /// The docks, where a station's row was read for what an acceptance changes.
    pub docks: Option<StationDocks>,
}

impl ViewAndDocks {
    /// A view for which no docks were read.
    pub(crate) fn plain(view: View) -> ViewAndDocks
        ensures { result ≡ record { view = view; docks = None } }
    {
        ViewAndDocks { view, docks: None }
    }
}

/// The view that was found, for which no docks were read.
pub(crate) fn without_docks(
    found: Result<View, StatementFault>,
) -> Result<ViewAndDocks, StatementFault>
    ensures { IsPlain found result }
{
    Ok(ViewAndDocks::plain(found?))
}
