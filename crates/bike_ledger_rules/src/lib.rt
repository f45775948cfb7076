//! The rules of riders, rentals, entries, the history and books in code: for each table the first bad key.
//!
//! `specs/Riders`, `specs/Rentals`, `specs/Entries`, `specs/History` and `specs/Books` say what is asked of the lines
//! of the audit's queries; each function answers by `JudgesTable` of bike_judges.
//!
//! Each query walks one table in the order of its key, alone or with one partner beside each row, so the database holds
//! no table in memory; the callers and keys of the history are walked by their index. What each rental or entry names
//! is read once, into sets of numbers and identifiers (`known`), which the limits of a city bound. What is summed over
//! another table stands in `NumberedSums`, an array by number.
#![tactic(auto)]

mod books;
mod columns;
mod entries;
mod history;
mod idents;
mod known;
mod numbers;
mod open_rentals;
mod rental_entries;
mod rentals;
mod riders;
mod sums;

pub use books::judge_books;
pub use entries::judge_entries;
pub use history::judge_history;
pub use rentals::judge_rentals;
pub use riders::judge_riders;
