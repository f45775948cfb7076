//! The audit's rules of the catalogue: the rows of `meta` and of the system, of plans with their segments, of vehicle
//! types, of regions, and of names in further languages.
//!
//! Each function names the first bad key of its table, where all tables before it are good. It reads the table's
//! lines once and keeps one line at a time; names are read three times: in their order, with the
//! places that have them, and with the types and plans.
#![tactic(auto)]

mod key;
mod meta;
mod names;
mod plans;
mod regions;
mod segments;
mod system;
mod types;

pub use meta::judge_meta;
pub use names::judge_names;
pub use plans::judge_plans;
pub use regions::judge_regions;
pub use segments::judge_segments;
pub use system::judge_system;
pub use types::judge_types;
