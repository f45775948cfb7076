//! The reads of the tables of riders, rentals, plans, further names, the ledger, the history and what was archived.
//! Each answers what the operator has whose tables stand in the database, and changes nothing.
//!
//! Some give rows, for a walk or a page that reads them (`select_names`, `find_plan_row_from`). `collect_rows` reads
//! all rows of a walk where the engine has them, into what a `ReadRow` keeps of each.
#![tactic(auto)]

mod books;
mod collect;
mod entries;
mod kept;
mod meta;
mod names;
mod newest;
mod numbers;
mod plans;
mod rentals;
mod riders;
mod segments;

pub use books::{Archived, find_archived};
pub use collect::{ReadRow, collect_rows, short_text_at};
pub use entries::entry_count;
pub use kept::{KeptRow, LastRequest, find_kept, last_request};
pub use meta::find_since;
pub use names::{NameRow, find_names, find_system_key, read_names, select_names};
pub use newest::newest_tells;
pub use plans::{are_plans_full, find_plan, find_plan_row_from, has_plan, has_system};
pub use rentals::{
    find_open_rental, find_rental, is_riding, open_rental_count, read_rental, rental_count,
};
pub use riders::{are_riders_full, find_rider, find_rider_balance, find_rider_row, has_rider};
