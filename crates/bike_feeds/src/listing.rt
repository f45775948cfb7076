//! The lists of which feeds' data are made.

ghost use Rattle.std.specs.Prelude.{◌≡◌};
ghost use Rattle.bike_feeds.specs.Listings.{list_name};

use bike_json::{MemberName, member};

/// What the one list of a feed's data holds.
#[derive(Clone, Copy, Drop)]
pub(crate) enum Listing {
    /// The vehicle types.
    Types,
    /// The stations: names, places and docks.
    Stations,
    /// The stations: counts, flags and last reports.
    Statuses,
    /// The pricing plans.
    Plans,
    /// The regions.
    Regions,
}

impl Listing {
    /// The name of the list in GBFS.
    pub(crate) fn name(self) -> MemberName
        ensures { result.plain.now ≡ list_name self }
    {
        match self {
            Listing::Types => member!("vehicle_types"),
            Listing::Stations | Listing::Statuses => member!("stations"),
            Listing::Plans => member!("plans"),
            Listing::Regions => member!("regions"),
        }
    }
}
