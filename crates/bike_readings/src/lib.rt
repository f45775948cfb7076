//! What a stored row spells, both ways.
//!
//! `specs/Readings` gives for each table the record that any row spells, or nothing; `specs/BothWays` says that this is
//! exact. The functions answer just that of a `Part` of a row that the database lends. Texts stay in the
//! row, and no memory is taken, but for an accepted request.
//!
//! The rules by which tables stand for an operator are the audit's definition, with no code: `specs/ReadOff` gives the
//! operator that any tables spell, `specs/Demands` what is demanded of each row, with the row to blame for each fault,
//! and `specs/Rules` when a key is good and which key is the first bad one. Their laws say that this is exact: the keys
//! are all good exactly where the tables are those of a sound operator.
#![tactic(auto)]

mod books;
mod catalogue;
mod columns;
mod fleet;
mod history;
mod laws;
mod ledger;
mod names;
mod network;
mod part;
mod rules;

pub use books::{StoredBooks, read_books};
pub use catalogue::{
    StoredMeta, StoredPlan, StoredSegment, StoredSystem, StoredType, read_meta, read_plan,
    read_segment, read_system, read_type,
};
pub use fleet::{
    StoredBike, StoredEnd, StoredOrder, StoredPlace, StoredTruck, read_bike, read_order, read_truck,
};
pub use history::{StoredRequest, read_request};
pub use laws::{keeps_bounds, reads_both_ways};
pub use ledger::{
    StoredClosing, StoredEntry, StoredRental, StoredRider, read_entry, read_rental, read_rider,
};
pub use names::{StoredName, read_name};
pub use network::{StoredDock, StoredRegion, StoredStation, read_dock, read_region, read_station};
pub use part::Part;
pub use rules::{rules_law, stored_law, verdict_law};
