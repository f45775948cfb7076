//! What the tables store of what an accepted command touches.

use bike_book::CountedType;
use bike_fields::DockTotal;

/// What is stored of a dock and its station.
#[derive(Clone, Copy)]
pub struct StoredDock {
    /// How many docks of the station are available.
    pub free: DockTotal,
    /// How many docks of the station are broken.
    pub broken: DockTotal,
    /// Whether the dock has a row.
    pub is_listed: bool,
}

/// The counts of a type at a station.
#[derive(Clone, Copy)]
pub struct StoredCounts {
    /// How many bicycles of the type can be rented there.
    pub available: DockTotal,
    /// How many bicycles of the type in its docks can't.
    pub disabled: DockTotal,
}

/// What is stored of what an accepted command touches.
#[derive(Drop)]
pub struct Stored {
    /// The dock and its station.
    pub dock: StoredDock,
    /// The station's bicycles by type.
    pub by_type: Vec<CountedType>,
    /// The counts there of the type of the bicycle that is put or marked.
    pub counts: StoredCounts,
}
