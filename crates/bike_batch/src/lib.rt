//! What is read and written in one go over a desk: request lines, tables of stations, a day's tables, and the history.
//!
//! - `run_lines`: each line of an input is served over a desk, and answered before the next one is read. The answers
//!   are those of the operator for which the desk stands, for every way in which the input arrives. Where the run ends
//!   before its input does, the fault tells how far reading, writing and the desk came.
//! - `import_stations`: a table of stations, taken into service row by row.
//! - `day_csv`: the ledger's entries, the rentals that ended, or the accepted requests, on the local day that a date
//!   and a zone name, as comma-separated values. Its rows are read one at a time and written as they are read, so no
//!   more than one is held.
//! - `write_history`: the accepted requests behind a number, as lines that `run_lines` would serve again. They are read
//!   page by page, and a page is written before the next is read.
#![tactic(auto)]

mod day;
mod day_fault;
mod day_tables;
mod history;
mod history_fault;
mod import;
mod import_fault;
mod input;
mod laws;
mod line_fault;
mod lines;
mod request;
mod row;
mod table;

pub use day::day_csv;
pub use day_fault::DayTableFault;
pub use history::write_history;
pub use history_fault::HistoryFault;
pub use import::{MOST_ROWS, import_stations};
pub use import_fault::ImportFault;
pub use input::MOST_TABLE_READS;
pub use laws::history_lines_law;
pub use line_fault::LinesFault;
pub use lines::{MOST_READS, run_lines};
