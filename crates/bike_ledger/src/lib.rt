//! The ledger: entries that book money between cash, riders and revenue.
//!
//! A balance is a sum over entries; one more entry changes it by the entry's credit. Money is neither
//! made nor lost: the balances and the revenue together are the cash.
#![tactic(auto)]

mod entry;
mod sums;

pub use entry::{Entry, EntryKind, EntryNumber};
pub use sums::{
    GREATEST_BALANCE, balance_after, bound_law, entry_law, is_balance, money_law, refundable,
};
