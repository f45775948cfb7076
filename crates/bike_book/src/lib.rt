//! The tables that stand for an operator, and what each change makes of them.
//!
//! `specs/Stored` gives the tables of an operator, row by row, with every stored number as a count or a sum over its
//! records; `specs/Writes` what a row change does to the tables. The laws say which row changes lead from the tables of
//! one operator to those of the next.
#![tactic(auto)]

mod by_type;
pub mod columns;
mod laws;
mod requests;
mod row_change;
mod tables;
mod type_texts;
mod version;

pub use by_type::{CountedType, TypeCounts, counts_of, set_counts};
pub use laws::{
    books_catalogue, books_close, books_fleet, books_rentals, counts_by_type, finds_rows,
    starts_at_zero,
};
pub use requests::{MOST_REQUESTS, RequestCount};
pub use row_change::RowChange;
pub use type_texts::{by_type_text, by_type_with, is_text_of, read_by_type};
pub use version::NEWEST;
