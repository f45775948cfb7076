//! Entries of the ledger.

ghost use Rattle.std.specs.Prelude.{◌≡◌, ◌≤◌, ◌≤ℤ◌, pos};

use bike_fields::{GREATEST_SERIAL, Payment, RentalNumber, RiderNumber, kind};
use bike_fixed::{Cents, GREATEST_FARE, Moment, Within};
use std::marker::Model;

/// The number of an entry, 1 to `GREATEST_SERIAL`.
pub type EntryNumber = Within<1, GREATEST_SERIAL, kind::Entry>;

/// What an entry books: from which account to which.
#[derive(Clone, Copy, Debug, PartialEq, Eq)]
pub enum EntryKind {
    /// From cash to the rider.
    TopUp,
    /// From the rider to revenue, at the end of a rental.
    Fare,
    /// From revenue back to the rider of a rental.
    Refund,
    /// From the rider to cash: paid out, or charged back.
    Withdrawal,
    /// From the rider to revenue, beside a rental: a fee.
    Charge,
    /// From revenue to the rider: goodwill.
    Credit,
}

/// One entry of the ledger. It is of a rental exactly where it is a fare or a refund, and its amount is 0 to
/// `GREATEST_FARE` hundredths.
#[derive(Clone, Copy, Debug, PartialEq, Eq)]
pub struct Entry {
    number: EntryNumber,
    kind: EntryKind,
    rider: RiderNumber,
    rental: Within<0, GREATEST_SERIAL>,
    amount: Cents,
    at: Moment,
}

impl Model for Entry {
    ghost use Rattle.bike_ledger.specs.Entries.{Entry as EntryValue, IsEntry};

    ghost Value = { EntryValue };

    ghost view = { λ a. record {
      number = a.number;
      kind = a.kind;
      rider = a.rider;
      rental = a.rental;
      amount = a.amount;
      at = a.at;
    } };

    ghost invariant = { λ a. IsEntry (record {
      number = a.number;
      kind = a.kind;
      rider = a.rider;
      rental = a.rental;
      amount = a.amount;
      at = a.at;
    }) };

    ghost inverse = { λ e. record {
      number = e.number;
      kind = e.kind;
      rider = e.rider;
      rental = e.rental;
      amount = e.amount;
      at = e.at;
    } };
}

impl Entry {
    /// The entry of a top-up, of 1 to 1,000,000 hundredths.
    pub fn top_up(number: EntryNumber, rider: RiderNumber, amount: Payment, at: Moment) -> Entry
        ensures { result ≡ record {
          number = number;
          kind = EntryKind.TopUp;
          rider = rider;
          rental = 0;
          amount = pos amount;
          at = at;
        } }
    {
        Entry {
            number,
            kind: EntryKind::TopUp,
            rider,
            rental: none(),
            amount: Cents::new(i64::from(amount.get())),
            at,
        }
    }

    /// The entry of a rental's fare, of 0 to `GREATEST_FARE` hundredths.
    pub fn fare(
        number: EntryNumber,
        rider: RiderNumber,
        rental: RentalNumber,
        amount: Cents,
        at: Moment,
    ) -> Entry
        requires low { pos 0 ≤ℤ amount }
        requires high { amount ≤ℤ GREATEST_FARE }
        ensures { result ≡ record {
          number = number;
          kind = EntryKind.Fare;
          rider = rider;
          rental = rental;
          amount = amount;
          at = at;
        } }
    {
        let rental = some(rental);
        Entry {
            number,
            kind: EntryKind::Fare,
            rider,
            rental,
            amount,
            at,
        }
    }

    /// The entry of a refund to the rider of a rental, of 1 to 1,000,000 hundredths.
    pub fn refund(
        number: EntryNumber,
        rider: RiderNumber,
        rental: RentalNumber,
        amount: Payment,
        at: Moment,
    ) -> Entry
        ensures { result ≡ record {
          number = number;
          kind = EntryKind.Refund;
          rider = rider;
          rental = rental;
          amount = pos amount;
          at = at;
        } }
    {
        let rental = some(rental);
        Entry {
            number,
            kind: EntryKind::Refund,
            rider,
            rental,
            amount: Cents::new(i64::from(amount.get())),
            at,
        }
    }

    /// The entry of a withdrawal, of 1 to 1,000,000 hundredths.
    pub fn withdrawal(number: EntryNumber, rider: RiderNumber, amount: Payment, at: Moment) -> Entry
        ensures { result ≡ record {
          number = number;
          kind = EntryKind.Withdrawal;
          rider = rider;
          rental = 0;
          amount = pos amount;
          at = at;
        } }
    {
        Entry {
            number,
            kind: EntryKind::Withdrawal,
            rider,
            rental: none(),
            amount: Cents::new(i64::from(amount.get())),
            at,
        }
    }

    /// The entry of a charge, of 1 to 1,000,000 hundredths.
    pub fn charge(number: EntryNumber, rider: RiderNumber, amount: Payment, at: Moment) -> Entry
        ensures { result ≡ record {
          number = number;
          kind = EntryKind.Charge;
          rider = rider;
          rental = 0;
          amount = pos amount;
          at = at;
        } }
    {
        Entry {
            number,
            kind: EntryKind::Charge,
            rider,
            rental: none(),
            amount: Cents::new(i64::from(amount.get())),
            at,
        }
    }

    /// The entry of a credit, of 1 to 1,000,000 hundredths.
    pub fn credit(number: EntryNumber, rider: RiderNumber, amount: Payment, at: Moment) -> Entry
        ensures { result ≡ record {
          number = number;
          kind = EntryKind.Credit;
          rider = rider;
          rental = 0;
          amount = pos amount;
          at = at;
        } }
    {
        Entry {
            number,
            kind: EntryKind::Credit,
            rider,
            rental: none(),
            amount: Cents::new(i64::from(amount.get())),
            at,
        }
    }

    /// Its number: entries are numbered 1, 2, 3, ..
    pub fn number(&self) -> EntryNumber
        ensures { result ≡ self.now.number }
    {
        self.number
    }

    /// What it books.
    pub fn kind(&self) -> EntryKind
        ensures { result ≡ self.now.kind }
    {
        self.kind
    }

    /// The rider whose balance it changes.
    pub fn rider(&self) -> RiderNumber
        ensures { result ≡ self.now.rider }
    {
        self.rider
    }

    /// The rental of a fare or refund, 1 or more; 0 with every other kind.
    pub fn rental(&self) -> Within<0, GREATEST_SERIAL>
        ensures { result ≡ self.now.rental }
    {
        self.rental
    }

    /// The amount, 0 to `GREATEST_FARE` hundredths of the currency.
    pub fn amount(&self) -> Cents
        ensures value { result ≡ self.now.amount }
        ensures low { pos 0 ≤ℤ result }
        ensures high { result ≤ℤ GREATEST_FARE }
    {
        self.amount
    }

    /// When it was booked.
    pub fn at(&self) -> Moment
        ensures { result ≡ self.now.at }
    {
        self.at
    }
}

/// No rental.
fn none() -> Within<0, GREATEST_SERIAL>
    ensures { result ≡ 0 }
{
    match Within::new(0) {
        Some(zero) => zero,
        None => unreachable!(),
    }
}

/// This rental, and that it isn't none.
fn some(rental: RentalNumber) -> Within<0, GREATEST_SERIAL>
    ensures value { result ≡ rental }
    ensures low { 1 ≤ result }
{
    match Within::new(rental.get()) {
        Some(rental) => rental,
        None => unreachable!(),
    }
}
