//! Entries with the numbers after them.

ghost use Rattle.std.specs.Prelude.{◌≡◌, ◌<◌, ◌≤◌, ◌≤ℤ◌, ◌+◌, ◌+ℤ◌, ◌-ℤ◌, pos, int_lt, None, MatchOption};
ghost use Rattle.bike_ledger.specs.Ledger.{IsBalance, credit};
ghost use Rattle.bike_ledger.specs.declared.entry.EntryKind.TheVariants as kind;
ghost use Rattle.bike_commands.specs.declared.reply.Reply.TheVariants.{Balance, Ended};
ghost use Rattle.bike_accepted.specs.declared.change.Change.TheVariants as change;
ghost use Rattle.bike_operator.specs.Steps.{fare_now};

use crate::accepted::BookedEntry;
use crate::change::Change;
use bike_commands::Reply;
use bike_fares::fare;
use bike_fields::{GREATEST_SERIAL, Ident, Payment};
use bike_fixed::{Cents, Moment, Within};
use bike_ledger::{Entry, EntryNumber, balance_after, refundable};
use bike_operator::{Closing, MOST_ENTRIES, RentalView};
use bike_texts::Fare;

/// The number after so many numbered ones, by the numbering rule.
pub fn next_number<K>(count: u32) -> Within<1, GREATEST_SERIAL, K>
    requires { count < MOST_ENTRIES }
    ensures { result ≡ count + 1 }
{
    match Within::new(count + 1) {
        Some(number) => number,
        None => unreachable!(),
    }
}

/// The number of the entry after so many, if there may be one more. Where there may not, an operator's ledger is full.
pub fn next_entry(entries: u32) -> Option<EntryNumber>
    ensures { MatchOption result (MOST_ENTRIES ≤ entries) (λ number. number ≡ entries + 1) }
{
    if entries < MOST_ENTRIES {
        return Some(next_number(entries));
    }
    None
}

/// An entry that is booked, with its rider's balance after it, and for a refund what is refunded then.
pub fn booked(balance: Cents, entry: Entry, refunded: Option<Cents>) -> BookedEntry
    requires { IsBalance balance }
    ensures entry { result.entry ≡ entry }
    ensures balance { result.balance ≡ balance +ℤ credit entry.kind entry.amount }
    ensures refunded { result.refunded ≡ refunded }
{
    BookedEntry {
        balance: balance_after(balance, &entry),
        entry,
        refunded,
    }
}

/// The fare of a rental that ends now, booked by the closing rule.
pub fn fare_booked(entries: u32, row: &RentalView, now: Moment) -> BookedEntry
    // The ledger has room, the rental began, and its rider has a balance.
    requires few { entries < MOST_ENTRIES }
    requires began { row.now.rental.start ≤ now }
    requires balance { IsBalance row.now.balance }
    // The entry: a fare of this rental to its rider, with the next number.
    ensures entry { result.entry ≡ record {
      number = entries + 1;
      kind = kind.Fare;
      rider = row.now.rental.rider;
      rental = row.now.number;
      amount = fare_now row.now now;
      at = now;
    } }
    // The balance with it; nothing is refunded.
    ensures balance { result.balance ≡ row.now.balance +ℤ credit kind.Fare (fare_now row.now now) }
    ensures refunded { result.refunded ≡ None }
{
    let number = next_number(entries);
    let amount = fare(&row.plan, row.rental.start, now);
    let entry = Entry::fare(number, row.rental.rider, row.number, amount, now);
    booked(row.balance, entry, None)
}

/// The rental closed at a station or recovered, at the moment and the fare that are booked.
pub fn closing<'a>(
    row: &RentalView,
    to_station: Option<&'a Ident>,
    booked: &BookedEntry,
) -> Change<'a>
    ensures { let entry = booked.now.entry in
        result ≡ change.CloseRental row.now.number to_station.entry entry.at entry.amount }
{
    Change::CloseRental {
        rental: row.number.get(),
        to_station,
        finish: booked.entry.at(),
        fare: booked.entry.amount(),
    }
}

/// The reply that tells the balance after an entry.
pub fn balance_reply(booked: &BookedEntry) -> Reply
    ensures { result ≡ Balance booked.now.balance }
{
    Reply::Balance(booked.balance.hundredths())
}

/// The reply that tells a fare and the balance after it.
pub fn ended_reply(booked: &BookedEntry) -> Reply
    ensures { result ≡ Ended booked.now.entry.amount booked.now.balance }
{
    Reply::Ended {
        fare: Fare::of(booked.entry.amount().hundredths()),
        balance: booked.balance.hundredths(),
    }
}

/// Whether an amount is more than what of a rental's fare isn't refunded yet, which the refund rule forbids.
pub fn is_too_much(closing: &Closing, refunded: Cents, amount: Payment) -> bool
    requires low { pos 0 ≤ℤ refunded }
    requires high { refunded ≤ℤ closing.now.fare }
    ensures { result ≡ int_lt (closing.now.fare -ℤ refunded) (pos amount) }
{
    let left = refundable(closing.fare, refunded);
    left.hundredths() < i64::from(amount.get())
}

/// The sum of both in hundredths, which is at most so much.
fn hundredths_within(refunded: i64, amount: Payment, most: i64) -> i64
    requires low { pos 0 ≤ℤ refunded }
    requires high { refunded ≤ℤ most }
    requires within { pos amount ≤ℤ (most -ℤ refunded) }
    ensures { result ≡ refunded +ℤ pos amount }
{
    let left = most - refunded;
    let amount = i64::from(amount.get());
    most - (left - amount)
}

/// The sum of both, which is at most so much.
pub fn sum_within(refunded: Cents, amount: Payment, most: Cents) -> Cents
    requires low { pos 0 ≤ℤ refunded }
    requires high { refunded ≤ℤ most }
    requires within { pos amount ≤ℤ (most -ℤ refunded) }
    ensures { result ≡ refunded +ℤ pos amount }
{
    Cents::new(hundredths_within(refunded.hundredths(), amount, most.hundredths()))
}
