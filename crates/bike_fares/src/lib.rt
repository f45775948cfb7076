//! Fares: what a rental costs under a plan of the catalogue.
//!
//! A fare is the greater of 0 and the plan's price with every charge of its segments at the whole minutes
//! that the rental reached. It is found by one division a segment, for every plan and every two moments,
//! and no sum overflows.
#![tactic(auto)]

mod elapsed;
mod laws;
mod minutes;
mod pricing;

pub use laws::{due_law, greatest_fare_law};
pub use minutes::fare_by_minutes;
pub use pricing::fare;
