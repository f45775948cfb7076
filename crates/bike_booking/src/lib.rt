//! The row changes of an accepted command: a total function of what it makes and of what is stored of the dock that it
//! touches, and the law that they lead from the tables of the operator to those of the operator after the request.
#![tactic(auto)]

mod figures;
mod laws;
mod moves;
mod rows;
mod shares;
mod stored;
mod texts;

pub use figures::Figures;
pub use laws::books_accepted;
pub use moves::{books_added_docks, books_marked, books_put, books_request};
pub use rows::{MOST_ROW_CHANGES, Rows, rows_of};
pub use stored::{Stored, StoredCounts, StoredDock};
pub use texts::KeptTexts;
