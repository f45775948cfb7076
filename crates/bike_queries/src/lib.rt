//! Reads for the queries of a desk. Each answers what the operator whose tables stand in the database holds of a name,
//! or next in order, as a value that owns what it shows, and changes nothing.
//!
//! Stored numbers are used as they stand (a rider's balance, a rental's refunds, the numbers of a station): no bicycle
//! and no entry is counted. Rentals, entries and requests that were archived aren't found. A row that holds what the
//! product never writes is `StoreFailed`; memory that is refused is `NoMemory`.
#![tactic(auto)]

mod after;
mod begin;
mod bikes;
mod columns;
mod counts;
mod entries;
mod languages;
mod pages;
mod plans;
mod regions;
mod rentals;
mod requests;
mod riders;
mod span;
mod stations;
mod status;
mod system;
mod types;

pub use begin::find_history_begin;
pub use bikes::find_place;
pub use counts::find_station_counts;
pub use entries::find_entry_after;
pub use languages::find_language_after;
pub use pages::STATIONS_A_PAGE;
pub use plans::find_plan_after;
pub use regions::find_region_after;
pub use rentals::{find_ended_after, find_rental_info};
pub use requests::{REQUESTS_A_PAGE, find_request_after, find_requests_after};
pub use riders::{RiderInfo, find_balance, find_rider_info};
pub use stations::{NamedStation, find_stations_after};
pub use status::{StationStatus, find_statuses_after};
pub use system::find_system;
pub use types::{find_type_after, find_type_ids};
