//! A rental, as queries show one, and those that ended in a span of time in order of their numbers.

ghost use Rattle.std.specs.Prelude.{◌≡◌, IfOk, option_map};
ghost use Rattle.bike_book.specs.Stored.{stored_rental};
ghost use Rattle.bike_schema.specs.Answers.{Answers};
ghost use Rattle.bike_queries.specs.Infos.{closing_info, rental_info, rental_info_at};
ghost use Rattle.bike_queries.specs.Spans.{ended_after, ended_info, ended_info_after};

use crate::span::{seconds_of, start_at};
use bike_book::columns::rentals;
use bike_fields::RentalNumber;
use bike_fixed::{Cents, Moment};
use bike_office_reads::{find_rental, read_rental};
use bike_operator::{Closing, ClosingInfo, Rental, RentalInfo};
use bike_schema::{StatementFault, number_at};
use bike_sql::lookup::first_row;
use sqlite::{Alter, Connection, Row, params};
use std::alloc::Global;

/// How a rental was closed, with the sum of its refunds.
fn closing_info(closing: Option<Closing>, refunded: Cents) -> Option<ClosingInfo>
    ensures { result ≡ option_map (closing_info refunded) closing }
{
    let Closing {
        to_station,
        finish,
        fare,
    } = closing?;
    Some(ClosingInfo {
        to_station,
        finish,
        fare,
        refunded,
    })
}

/// What is shown of a rental with this sum of its refunds.
fn rental_info(rental: Rental, refunded: Cents) -> RentalInfo
    ensures { result ≡ rental_info refunded rental }
{
    let Rental {
        rider,
        bike,
        plan,
        from_station,
        start,
        closing,
    } = rental;
    RentalInfo {
        rider,
        bike,
        plan,
        from_station,
        start,
        closing: closing_info(closing, refunded),
    }
}

/// The rental of this number, if there is one. `NoMemory` where its texts find no room; every other fault is the
/// database's.
pub fn find_rental_info<S: Alter>(
    alloc: Global,
    conn: &mut Connection<S>,
    rental: RentalNumber,
) -> Result<Option<RentalInfo>, StatementFault>
    ensures { Answers S.Store conn.old conn.new result (λ s m x. x ≡ rental_info_at s rental) }
{
    match find_rental(alloc, conn, rental)? {
        Some((found, refunded)) => Ok(Some(rental_info(found, refunded))),
        None => Ok(None),
    }
}

/// The row of the first rental of a later number that ended in the span.
fn select_ended<S: Alter>(
    conn: &mut Connection<S>,
    number: u64,
    begin: Moment,
    end: Moment,
) -> Result<Option<Row>, StatementFault>
    ensures { Answers S.Store conn.old conn.new result
        (λ s m row. row ≡ option_map (stored_rental s.entries.items) (ended_after s number begin end)) }
{
    first_row(
        conn,
        "SELECT * FROM rentals WHERE rental > ?1 AND finish >= ?2 AND finish < ?3 ORDER BY rental LIMIT 1",
        params![start_at(number), seconds_of(begin), seconds_of(end)],
    )
}

/// The number of the rental that stands in a row of `rentals`, and what is shown of it.
fn read_ended(alloc: Global, row: &Row) -> Result<(RentalNumber, RentalInfo), StatementFault>
    ensures { IfOk result (λ x. (entries : _) (e : _) → row.now ≡ stored_rental entries e → x ≡ ended_info entries e) }
{
    let number = number_at(row, rentals::RENTAL)?;
    let (rental, refunded) = read_rental(alloc, row)?;
    Ok((number, rental_info(rental, refunded)))
}

/// The first rental of a later number that ended at `begin` or later and before `end`, with its number; `None` where
/// there is none. `NoMemory` where its texts find no room; every other fault is the database's.
pub fn find_ended_after<S: Alter>(
    alloc: Global,
    conn: &mut Connection<S>,
    number: u64,
    begin: Moment,
    end: Moment,
) -> Result<Option<(RentalNumber, RentalInfo)>, StatementFault>
    ensures { Answers S.Store conn.old conn.new result
        (λ s m x. x ≡ ended_info_after s number begin end) }
{
    match select_ended(conn, number, begin, end)? {
        Some(row) => Ok(Some(read_ended(alloc, &row)?)),
        None => Ok(None),
    }
}
