//! The audit's rules of stations and of docks.
#![tactic(auto)]

mod account;
mod by_type;
mod dock_set;
mod docks;
mod judge;
mod lines;
mod station_rows;

pub use judge::{judge_docks, judge_stations};
