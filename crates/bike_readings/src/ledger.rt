//! The rows of riders, rentals and entries.

ghost use Rattle.std.specs.Prelude.{◌≡◌, option_map};
ghost use Rattle.sqlite_value.specs.Order.{column};
ghost use Rattle.bike_readings.specs.ColumnReaders.{closing_in, closed_in, rental_in, amount_in};
ghost use Rattle.bike_readings.specs.Readings.{rider_read, rental_read, entry_read};
ghost use Rattle.bike_readings.specs.Views.{rider_of, closing_of, rental_of, entry_of};

use crate::columns::{
    cents_in, flag_in, ident_in, ident_or_none_in, is_null_at, kind_in, moment_in, number_in,
    signed_in,
};
use crate::part::Part;
use bike_book::columns::{entries, rentals, riders};
use bike_fields::{BicycleNumber, GREATEST_PAYMENT, RentalNumber, RiderNumber};
use bike_fixed::{Cents, GREATEST_FARE, Moment, Within};
use bike_ledger::{EntryKind, EntryNumber};

/// A row of `riders`.
#[derive(Clone, Copy)]
pub struct StoredRider<'a> {
    pub rider: RiderNumber,
    pub is_blocked: bool,
    /// The rider's balance as the row has it, in hundredths.
    pub balance: Cents,
    /// The balance by the entries that were archived, in hundredths.
    pub before: Cents,
    /// The rider's own plan, if any.
    pub plan: Option<&'a str>,
}

/// How a rental was closed.
#[derive(Clone, Copy)]
pub struct StoredClosing<'a> {
    /// The station at which it ended; none where the bicycle was recovered.
    pub to_station: Option<&'a str>,
    pub finish: Moment,
    /// Its fare.
    pub fare: Cents,
}

/// A row of `rentals`.
#[derive(Clone, Copy)]
pub struct StoredRental<'a> {
    pub rental: RentalNumber,
    pub rider: RiderNumber,
    pub bike: BicycleNumber,
    pub plan: &'a str,
    pub from_station: &'a str,
    pub start: Moment,
    /// None while it is open.
    pub closing: Option<StoredClosing<'a>>,
    /// The sum of its refunds as the row has it, in hundredths.
    pub refunded: Cents,
}

/// A row of `entries`.
#[derive(Clone, Copy)]
pub struct StoredEntry {
    pub number: EntryNumber,
    pub kind: EntryKind,
    pub rider: RiderNumber,
    /// Its rental, 0 but for a fare and a refund.
    pub rental: u32,
    /// Its amount.
    pub amount: Cents,
    pub at: Moment,
}

/// What a row of `riders` spells.
pub fn read_rider(part: Part<'_>) -> Option<StoredRider<'_>>
    ensures { option_map rider_of result ≡ rider_read part.entry }
{
    if part.column_count() != riders::COLUMNS {
        return None;
    }
    let rider = number_in(&part, riders::RIDER)?;
    let is_blocked = flag_in(&part, riders::BLOCKED)?;
    let balance = cents_in(&part, riders::BALANCE)?;
    let before = cents_in(&part, riders::BEFORE)?;
    let plan = ident_or_none_in(&part, riders::PLAN_ID)?;
    Some(StoredRider {
        rider,
        is_blocked,
        balance,
        before,
        plan,
    })
}

/// How a closed rental was closed.
fn closed_in<'a>(part: &Part<'a>) -> Option<Option<StoredClosing<'a>>>
    ensures { option_map (option_map closing_of) result
        ≡ closed_in (column part.now 6) (column part.now 7) (column part.now 8) }
{
    let to_station = ident_or_none_in(part, rentals::TO_STATION)?;
    let finish = moment_in(part, rentals::FINISH)?;
    let fare = Cents::new(signed_in(part, rentals::FARE, 0, GREATEST_FARE)?);
    Some(Some(StoredClosing {
        to_station,
        finish,
        fare,
    }))
}

/// How a rental was closed, or `Some(None)` where it is open.
fn closing_in<'a>(part: &Part<'a>) -> Option<Option<StoredClosing<'a>>>
    ensures { option_map (option_map closing_of) result
        ≡ closing_in (column part.now 6) (column part.now 7) (column part.now 8) }
{
    if is_null_at(part, rentals::TO_STATION)
        && is_null_at(part, rentals::FINISH)
        && is_null_at(part, rentals::FARE)
    {
        return Some(None);
    }
    closed_in(part)
}

/// What a row of `rentals` spells.
pub fn read_rental(part: Part<'_>) -> Option<StoredRental<'_>>
    ensures { option_map rental_of result ≡ rental_read part.entry }
{
    if part.column_count() != rentals::COLUMNS {
        return None;
    }
    let rental = number_in(&part, rentals::RENTAL)?;
    let rider = number_in(&part, rentals::RIDER)?;
    let bike = number_in(&part, rentals::BIKE)?;
    let plan = ident_in(&part, rentals::PLAN_ID)?;
    let from_station = ident_in(&part, rentals::FROM_STATION)?;
    let start = moment_in(&part, rentals::START)?;
    match closing_in(&part) {
        Some(closing) => {
            let refunded = cents_in(&part, rentals::REFUNDED)?;
            Some(StoredRental {
                rental,
                rider,
                bike,
                plan,
                from_station,
                start,
                closing,
                refunded,
            })
        }
        None => None,
    }
}

/// The rental of an entry of the kind: 0 but for a fare and a refund.
fn rental_in(kind: EntryKind, part: &Part<'_>) -> Option<u32>
    ensures { result ≡ rental_in kind (column part.now 3) }
{
    match kind {
        EntryKind::Fare | EntryKind::Refund => {
            let rental: RentalNumber = number_in(part, entries::RENTAL)?;
            Some(rental.get())
        }
        EntryKind::TopUp | EntryKind::Withdrawal | EntryKind::Charge | EntryKind::Credit => {
            let none: Within<0, 0> = number_in(part, entries::RENTAL)?;
            Some(none.get())
        }
    }
}

/// The amount of an entry of the kind.
fn amount_in(kind: EntryKind, part: &Part<'_>) -> Option<Cents>
    ensures { result ≡ amount_in kind (column part.now 4) }
{
    let (least, most) = match kind {
        EntryKind::Fare => (0, GREATEST_FARE),
        EntryKind::TopUp
        | EntryKind::Refund
        | EntryKind::Withdrawal
        | EntryKind::Charge
        | EntryKind::Credit => (1, i64::from(GREATEST_PAYMENT)),
    };
    Some(Cents::new(signed_in(part, entries::AMOUNT, least, most)?))
}

/// What a row of `entries` spells.
pub fn read_entry(part: Part<'_>) -> Option<StoredEntry>
    ensures { option_map entry_of result ≡ entry_read part.entry }
{
    if part.column_count() != entries::COLUMNS {
        return None;
    }
    let number = number_in(&part, entries::ENTRY)?;
    let kind = kind_in(&part, entries::KIND)?;
    let rider = number_in(&part, entries::RIDER)?;
    let rental = rental_in(kind, &part)?;
    let amount = amount_in(kind, &part)?;
    let at = moment_in(&part, entries::AT)?;
    Some(StoredEntry {
        number,
        kind,
        rider,
        rental,
        amount,
        at,
    })
}
