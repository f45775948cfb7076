//! The queries of the audit by name.

/// A query of the audit; `lines_of` in `specs/Lines` gives its lines, in their order.
#[derive(Clone, Copy, Debug, PartialEq, Eq)]
pub enum Query {
    /// The rows of `meta`.
    Meta,
    /// The rows of `system`.
    System,
    /// The rows of `plans`.
    Plans,
    /// Segments, each with its plan.
    Segments,
    /// Vehicle types, each with its default plan.
    Types,
    /// The rows of `regions`.
    Regions,
    /// Stations, each with its region.
    StationRows,
    /// Stations with their docks and the bicycles there.
    Stations,
    /// Docks, each with its station.
    Docks,
    /// Bicycles, each with its type and its station.
    BikeNames,
    /// Bicycles, each with its rental and its order.
    BikeUses,
    /// Bicycles, each with its truck.
    BikeTrucks,
    /// Docks with the bicycles in them.
    BikeDocks,
    /// Trucks with the bicycles on them.
    Trucks,
    /// Riders, each with its own plan.
    RiderRows,
    /// The rows of `rentals`.
    Rentals,
    /// Orders, each with its truck and its vehicle type.
    OrderNames,
    /// Orders, each with the stations at its ends.
    OrderEnds,
    /// Orders with the bicycles on trucks for them.
    OrderBikes,
    /// The rows of `entries`.
    Entries,
    /// Entries, each with its rental.
    EntryRentals,
    /// The rows of `history`.
    History,
    /// The caller, the key and the number of each row of `history`, in their order.
    HistoryKeys,
    /// The rows of `more_names`.
    Names,
    /// Names in further languages, each with the station and the region of its identifier.
    NamePlaces,
    /// Names in further languages, each with the vehicle type and the plan of its identifier.
    NameOffers,
    /// The rows of `books`.
    Books,
}
