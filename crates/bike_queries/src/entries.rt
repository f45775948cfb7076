//! The ledger's entries of a span of time in order of their numbers, one after another.

ghost use Rattle.std.specs.Prelude.{◌≡◌, ◌≤ℤ◌, IfOk, option_map, pos};
ghost use Rattle.sqlite_value.specs.declared.value.Value.TheVariants.{Int};
ghost use Rattle.sqlite_value.specs.Order.{column};
ghost use Rattle.bike_fixed.specs.declared.cents.TheConstants.{GREATEST_FARE};
ghost use Rattle.bike_book.specs.Rows.{entry_row, kind_number};
ghost use Rattle.bike_book.specs.declared.columns.entries.TheConstants as entries;
ghost use Rattle.bike_schema.specs.Answers.{Answers, IsReadOf};
ghost use Rattle.bike_queries.specs.Spans.{entry_after};

use crate::columns::whole_at;
use crate::span::{seconds_of, start_at};
use bike_book::columns::entries;
use bike_fields::Payment;
use bike_fixed::{Cents, GREATEST_FARE, Moment, Within};
use bike_ledger::{Entry, EntryKind};
use bike_schema::{StatementFault, cents_at, moment_at, number_at};
use bike_sql::lookup::first_row;
use sqlite::{Alter, Connection, Row, params};

/// The row of the first entry of a later number that lies in the span.
fn select_entry<S: Alter>(
    conn: &mut Connection<S>,
    number: u64,
    begin: Moment,
    end: Moment,
) -> Result<Option<Row>, StatementFault>
    ensures { Answers S.Store conn.old conn.new result
        (λ s m row. row ≡ option_map (λ e. entry_row e.number e) (entry_after s number begin end)) }
{
    first_row(
        conn,
        "SELECT * FROM entries WHERE entry > ?1 AND at >= ?2 AND at < ?3 ORDER BY entry LIMIT 1",
        params![start_at(number), seconds_of(begin), seconds_of(end)],
    )
}

/// The kind that the column stands for, which is stored as 1 to 6.
fn kind_at(row: &Row, at: usize) -> Result<EntryKind, StatementFault>
    ensures { IfOk result (λ x. (kind : _) → column row.now at ≡ Int (kind_number kind) → x ≡ kind) }
{
    match whole_at(row, at)? {
        1 => Ok(EntryKind::TopUp),
        2 => Ok(EntryKind::Fare),
        3 => Ok(EntryKind::Refund),
        4 => Ok(EntryKind::Withdrawal),
        5 => Ok(EntryKind::Charge),
        6 => Ok(EntryKind::Credit),
        _ => Err(StatementFault::StoreFailed),
    }
}

/// The amount in the column, where it may be that of a fare.
fn fare_at(row: &Row, at: usize) -> Result<Cents, StatementFault>
    ensures value { IfOk result (λ fare. column row.now at ≡ Int fare) }
    ensures bounds { IfOk result (λ fare. (pos 0 ≤ℤ fare) × (fare ≤ℤ GREATEST_FARE)) }
{
    let fare = cents_at(row, at)?;
    if fare.hundredths() < 0 || fare.hundredths() > GREATEST_FARE {
        return Err(StatementFault::StoreFailed);
    }
    Ok(fare)
}

/// The amount of an entry of no rental.
fn payment_at(row: &Row) -> Result<Payment, StatementFault>
    ensures rental { IfOk result (λ amount. column row.now entries.RENTAL ≡ Int (pos 0)) }
    ensures amount { IfOk result (λ amount. column row.now entries.AMOUNT ≡ Int (pos amount)) }
{
    let _none: Within<0, 0> = number_at(row, entries::RENTAL)?;
    number_at(row, entries::AMOUNT)
}

/// The entry that stands in a row of `entries`.
fn read_entry(row: &Row) -> Result<Entry, StatementFault>
    ensures { IsReadOf (λ e. entry_row e.number e) row.now result }
{
    let number = number_at(row, entries::ENTRY)?;
    let kind = kind_at(row, entries::KIND)?;
    let rider = number_at(row, entries::RIDER)?;
    let at = moment_at(row, entries::AT)?;
    match kind {
        EntryKind::TopUp => Ok(Entry::top_up(number, rider, payment_at(row)?, at)),
        EntryKind::Fare => {
            let rental = number_at(row, entries::RENTAL)?;
            let amount = fare_at(row, entries::AMOUNT)?;
            Ok(Entry::fare(number, rider, rental, amount, at))
        }
        EntryKind::Refund => {
            let rental = number_at(row, entries::RENTAL)?;
            let amount = number_at(row, entries::AMOUNT)?;
            Ok(Entry::refund(number, rider, rental, amount, at))
        }
        EntryKind::Withdrawal => Ok(Entry::withdrawal(number, rider, payment_at(row)?, at)),
        EntryKind::Charge => Ok(Entry::charge(number, rider, payment_at(row)?, at)),
        EntryKind::Credit => Ok(Entry::credit(number, rider, payment_at(row)?, at)),
    }
}

/// The first entry of a later number whose moment is `begin` or later and before `end`; `None` where there is none.
/// Every fault is the database's.
pub fn find_entry_after<S: Alter>(
    conn: &mut Connection<S>,
    number: u64,
    begin: Moment,
    end: Moment,
) -> Result<Option<Entry>, StatementFault>
    ensures { Answers S.Store conn.old conn.new result (λ s m x. x ≡ entry_after s number begin end) }
{
    match select_entry(conn, number, begin, end)? {
        Some(row) => Ok(Some(read_entry(&row)?)),
        None => Ok(None),
    }
}
