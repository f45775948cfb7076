//! The audit's rules of bicycles, trucks and orders.
#![tactic(auto)]

mod bike_tests;
mod bikes;
mod counted;
mod docks;
mod key;
mod order_tests;
mod orders;
mod partners;
mod trucks;

pub use bikes::judge_bikes;
pub use orders::judge_orders;
pub use trucks::judge_trucks;
