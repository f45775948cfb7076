//! What is asked of each line of a pass.

ghost use Rattle.std.specs.Prelude.{◌≡◌, ℕ, Bool, IfOk, OnOk};
ghost use Rattle.sqlite_value.specs.Order.{Row};
ghost use Rattle.bike_judges.specs.Judging.{key_row};
ghost use Rattle.bike_judges.specs.declared.pass.Opening.{Opening};

use crate::key::BadKey;
use bike_schema::StatementFault;
use sqlite::Row;
use std::alloc::Global;

/// A test of each line by itself.
pub trait LineTest: Drop {
    /// `test this before line`: whether a line is good before which so many others stand.
    ghost test: { Self → ℕ → Row → Bool };

    /// The key of a line.
    ghost key: { Self → Row → Row };

    /// Whether the line is good, before which `before` others stand. It is an error where memory is refused.
    fn is_good(&self, before: u64, line: &Row) -> Result<bool, StatementFault>
        ensures { IfOk result (λ good. good ≡ test self.now before line.now) };

    /// The key of a bad line. It is an error where memory is refused.
    fn bad_key(&self, line: &Row) -> Result<BadKey, StatementFault>
        ensures { IfOk result (λ found. key_row found ≡ key self.now line.now) };
}

/// What a line of a pass in stretches is.
#[derive(Clone, Copy, Debug, PartialEq, Eq)]
pub enum Opening<A> {
    /// It begins a stretch, with this account.
    Head(A),
    /// It begins a stretch, and spells nothing: it is bad.
    Unread,
    /// It belongs to the stretch before it, or to none.
    Item,
}

/// What the lines of a stretch come to: its head opens an account, and the lines after it are added to that.
pub trait Account: Drop {
    /// What a line begins.
    ghost begins: { Row → Opening Self };

    /// The account with one more line that is no head: those of other owners change nothing.
    ghost more: { Self → Row → Self };

    /// Whether the account is good before which so many stand.
    ghost good: { ℕ → Self → Bool };

    /// The key of its head.
    ghost key: { Self → Row };

    /// Reads the first line of a stretch. It is an error where memory is refused.
    fn begin(alloc: Global, line: &Row) -> Result<Opening<Self>, StatementFault>
        ensures { IfOk result (λ opening. opening ≡ begins line.now) };

    /// Adds a line. It is an error where memory is refused or a sum passes its bounds, which no stored city's does.
    fn add(&mut self, line: &Row) -> Result<(), StatementFault>
        ensures { OnOk result (self.new ≡ more self.old line.now) };

    /// Whether it is good, where so many accounts were closed before it.
    fn is_good(&self, before: u64) -> bool
        ensures { result ≡ good before self.now };

    /// The key of its head.
    fn bad_key(self) -> BadKey
        ensures { key_row result ≡ key self };
}
