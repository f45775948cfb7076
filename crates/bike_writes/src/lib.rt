//! The statements that make row changes: one statement each, inside a transaction.
//!
//! Each is proved by a line of `proofs/`: its text is read once against the layout of its table, whatever place the
//! schema gives that.
#![tactic(auto)]

mod catalogue;
mod columns;
mod fleet;
mod ledger;
mod names;
mod orders;
mod rentals;
mod riders;
mod row_changes;
mod stations;

pub use row_changes::put;
