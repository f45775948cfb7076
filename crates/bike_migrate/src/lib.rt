//! Raising a file of an earlier version of the schema to the newest.
//!
//! `raise` makes the newest tables beside the old ones, in one transaction, and audits them; then the old tables are
//! dropped and all is committed, or all is undone. An operator is the same before and after: one of an earlier version
//! has its requests in the order in which they were kept, of moment 0. A file that stands for none is told with its
//! first bad row, and is as it was. Of the old table `counts` what it tells of the stations that are there is told.
#![tactic(auto)]

mod build;
mod copy;
mod counts;
mod fault;
mod inside;
mod judge;
mod raising;
mod stations;

pub use fault::{RaiseCause, RaiseFault, UnsoundRow};
pub use raising::{raise, raise_watched};
