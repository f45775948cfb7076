//! The tables of the product: their columns and keys, how they are made, and what a write to one of them leaves of the
//! others.
//!
//! The tables are a family over their names (`specs/Layouts`), so that each fact of all of them is one fact of any of
//! them. A database that has them stands for an operator (`specs/Stands`).
#![tactic(auto)]

mod columns;
mod create;
mod fault;
pub mod indexes;
mod schema;
mod within;

pub use columns::{
    cents_at, flag_at, ident_at, language_at, moment_at, name_at, number_at, optional_cents_at,
    optional_ident_at, optional_moment_at, optional_number_at, request_count_at, state_at, str_at,
    text_at,
};
pub use create::{APP, OpenTransaction, create_tables};
pub use fault::StatementFault;
pub use schema::{has_none, has_room, is_unused};
pub use within::{ABOVE_TEXTS, are_at_least};
