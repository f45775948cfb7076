//! The operator of a bike share, defined: what it keeps, when it is sound, its 30 commands with their tests, effects
//! and replies, and the view by which a command is decided.
//!
//! The code here is data: the records and how many there may be, where a bicycle is put, and the view of an operator
//! for a command, with the test whether its numbers are those of a sound one. Decisions, and what they make, stand
//! above.
//!
//! What is shown of a rental, of a station and of an accepted request stands here too: queries answer it, and feeds,
//! HTTP and day tables are made of it.
#![tactic(auto)]

mod bounds;
mod change;
mod limits;
mod records;
mod rental_info;
mod request_info;
mod station_info;
mod view;

pub use bounds::is_bounded;
pub use change::NewPlace;
pub use limits::{
    MOST_BIKES, MOST_ENTRIES, MOST_FURTHER_NAMES, MOST_ORDERS, MOST_PLANS, MOST_REGIONS,
    MOST_RIDERS, MOST_STATIONS, MOST_TRUCKS, MOST_TYPES,
};
pub use records::{Bike, BikeState, Closing, Order, Place, Rental};
pub use rental_info::{ClosingInfo, RentalInfo};
pub use request_info::{RequestInfo, RequestPage};
pub use station_info::{Counts, StationInfo, TypeCount};
pub use view::{DockedBike, RentalView, RiderView, StationView, TruckView, View};
