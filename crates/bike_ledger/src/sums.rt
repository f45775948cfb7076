//! What one more entry does to the sums.

ghost use Rattle.std.specs.Prelude.{◌≡◌, ◌≢◌, ◌<◌, ◌↔◌, ◌++◌, ◌∷◌, [], ◌+ℤ◌, ◌-ℤ◌, ◌≤ℤ◌, pos, length, IsTrue, List, ℕ};
ghost use Rattle.std.specs.Prelude.{ℤ};
ghost use Rattle.bike_fields.specs.declared.numbers.TheConstants.{GREATEST_SERIAL};
ghost use Rattle.bike_ledger.specs.Entries.{Entry};
ghost use Rattle.bike_ledger.specs.Ledger.{total, credit, cash_in, revenue_in, given_back_of, share, balance_of};
ghost use Rattle.bike_ledger.specs.Ledger.{cash_of, revenue_of, refunded_of, IsAmount, IsBalance, AreAmounts};
ghost use Rattle.bike_ledger.specs.Money.{AreDistinct, AreOf, IsConserved};

use crate::entry::{Entry, EntryKind};
use bike_fixed::Cents;

/// What one entry fewer than `GREATEST_SERIAL`, each of `GREATEST_FARE`, come to, in hundredths.
pub const GREATEST_BALANCE: i64 = 3_456_179_965_438_200_000;

/// Whether one more entry can be added to a balance, to the cash or to the revenue.
pub fn is_balance(sum: Cents) -> bool
    ensures { IsTrue result ↔ IsBalance sum }
{
    let hundredths = sum.hundredths();
    -GREATEST_BALANCE <= hundredths && hundredths <= GREATEST_BALANCE
}

/// The balance of the entry's rider after the entry.
pub fn balance_after(balance: Cents, entry: &Entry) -> Cents
    requires balance { IsBalance balance }
    ensures { result ≡ balance +ℤ credit entry.now.kind entry.now.amount }
{
    let amount = entry.amount().hundredths();
    match entry.kind() {
        EntryKind::TopUp | EntryKind::Refund | EntryKind::Credit => {
            Cents::new(balance.hundredths() + amount)
        }
        EntryKind::Fare | EntryKind::Withdrawal | EntryKind::Charge => {
            Cents::new(balance.hundredths() - amount)
        }
    }
}

/// What of a fare may still be refunded.
pub fn refundable(fare: Cents, refunded: Cents) -> Cents
    requires low { pos 0 ≤ℤ refunded }
    requires high { refunded ≤ℤ fare }
    ensures { result ≡ fare -ℤ refunded }
{
    Cents::new(fare.hundredths() - refunded.hundredths())
}

/// The law of one more entry: the balance of its rider changes by its credit and no other rider's does,
/// and cash, revenue and the refunds of a rental change by what its kind adds.
pub fn entry_law()
    // The balances of riders.
    ensures balance { (es : List Entry) (e : Entry) (rider : ℕ)
        → balance_of rider (es ++ e ∷ []) ≡ balance_of rider es +ℤ share rider e }
    ensures own { (es : List Entry) (e : Entry)
        → balance_of e.rider (es ++ e ∷ []) ≡ balance_of e.rider es +ℤ credit e.kind e.amount }
    ensures others { (es : List Entry) (e : Entry) (rider : ℕ) → e.rider ≢ rider
        → balance_of rider (es ++ e ∷ []) ≡ balance_of rider es }
    // The cash, the revenue, and the refunds of a rental.
    ensures cash { (es : List Entry) (e : Entry) → cash_of (es ++ e ∷ []) ≡ cash_of es +ℤ cash_in e.kind e.amount }
    ensures revenue { (es : List Entry) (e : Entry)
        → revenue_of (es ++ e ∷ []) ≡ revenue_of es +ℤ revenue_in e.kind e.amount }
    ensures refunded { (es : List Entry) (e : Entry) (rental : ℕ)
        → refunded_of rental (es ++ e ∷ []) ≡ refunded_of rental es +ℤ given_back_of rental e }
    // Any figure that is summed over the entries.
    ensures any_sum { (figure : Entry → ℤ) (es : List Entry) (e : Entry)
        → total figure (es ++ e ∷ []) ≡ total figure es +ℤ figure e }
{}

/// The law of bounds: fewer than `GREATEST_SERIAL` entries, of amounts that an entry may have, leave every balance,
/// the cash and the revenue where one more entry can be added.
pub fn bound_law()
    ensures balance { (es : List Entry) (rider : ℕ) → AreAmounts es → length es < GREATEST_SERIAL
        → IsBalance (balance_of rider es) }
    ensures cash { (es : List Entry) → AreAmounts es → length es < GREATEST_SERIAL → IsBalance (cash_of es) }
    ensures revenue { (es : List Entry) → AreAmounts es → length es < GREATEST_SERIAL → IsBalance (revenue_of es) }
{}

/// The law of money: over every list of entries, the balances of all riders and the revenue together
/// are the cash. The riders are any list without repeats in which each entry's rider stands.
pub fn money_law()
    ensures { (riders : List ℕ) (es : List Entry) → AreDistinct riders → AreOf riders es → IsConserved riders es }
{}
