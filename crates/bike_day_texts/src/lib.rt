//! The texts of a day's tables: comma-separated values with a header, one row a line.
//!
//! A day has three tables: the ledger's entries, the rentals that ended, and the accepted requests. `write_header`
//! writes the names of a table's columns, `write_entry`, `write_ended` and `write_request` one row. Amounts are units
//! with two decimals, as `2.50`, moments are RFC 3339's in UTC, as `2024-03-31T21:59:59Z`, and each line ends in a line
//! feed. A line is made in memory before it is written.
#![tactic(auto)]

mod fault;
mod line;
mod rows;
mod table;

pub use fault::LineFault;
pub use rows::{write_ended, write_entry, write_header, write_request};
pub use table::DayTable;
