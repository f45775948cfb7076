//! Reads of stations, docks, types, regions, bicycles, trucks and orders. Each answers what is so of the
//! operator whose tables stand in the database, and changes nothing. `select_types`, `find_type_row_from` and
//! `find_region_row_from` give rows, for a walk that reads them.
//!
//! A private function sends one statement and gives its row, another reads the row's columns, and the public function
//! joins both. A row that holds what the product never writes is `StoreFailed`; memory that is refused is `NoMemory`.
#![tactic(auto)]

mod bikes;
mod by_type;
mod columns;
mod docks;
mod orders;
mod places;
mod regions;
mod stations;
mod trucks;
mod types;

pub use bikes::{NumberedBike, TruckLoad, are_bikes_full, find_bike, find_docked, find_truck_load};
pub use by_type::by_type_at;
pub use columns::{dock_total_at, no_docks};
pub use docks::find_mark;
pub use orders::{find_order, order_count};
pub use regions::{are_regions_full, find_region_row_from, has_region};
pub use stations::{
    DockNumbers, StationNumbers, StationRow, are_stations_full, find_dock_numbers, find_station,
    find_station_row, has_broken, has_station,
};
pub use trucks::{are_trucks_full, find_truck};
pub use types::{are_types_full, find_default_plan, find_type_row_from, has_type, select_types};
