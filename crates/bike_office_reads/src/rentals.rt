//! The rentals.

ghost use Rattle.std.specs.Prelude.{◌≡◌, [], ◌∷◌, IfOk, IsTrue};
ghost use Rattle.bike_operator.specs.Operator.{last_number};
ghost use Rattle.bike_operator.specs.Counts.{is_riding as rides, open_rentals};
ghost use Rattle.bike_book.specs.Tables.{Rentals};
ghost use Rattle.bike_book.specs.Rows.{number_value, rental_row};
ghost use Rattle.bike_book.specs.Found.{row_under, open_row, last_row};
ghost use Rattle.bike_schema.specs.Answers.{Answers, IsReadOf};
ghost use Rattle.bike_office_reads.specs.Accounts.{stored_rental_at};
ghost use Rattle.bike_office_reads.specs.Newest.{NewestTells, open_number, HoldsRental};
ghost use Rattle.bike_office_reads.specs.ReadRows.{HasClosing};

use crate::books::find_archived;
use crate::newest::{find_newest_open, select_open};
use crate::numbers::{count_rows, number_in};
use bike_book::columns::rentals;
use bike_fields::{RentalNumber, RiderNumber};
use bike_fixed::Cents;
use bike_operator::{Closing, Rental};
use bike_schema::{
    StatementFault, cents_at, ident_at, moment_at, number_at, optional_cents_at, optional_ident_at,
    optional_moment_at,
};
use bike_sql::lookup::first_row;
use sqlite::{Alter, Connection, Row, params};
use std::alloc::Global;

/// The rental's row of `rentals`.
fn find_rental_row<S: Alter>(
    conn: &mut Connection<S>,
    rental: RentalNumber,
) -> Result<Option<Row>, StatementFault>
    ensures { Answers S.Store conn.old conn.new result
        (λ s m row. row ≡ row_under s m Rentals (number_value rental ∷ [])) }
{
    first_row(
        conn,
        "SELECT * FROM rentals WHERE rental = ?1",
        params![rental.get()],
    )
}

/// The row of the rider's open rental.
fn find_open_row<S: Alter>(
    conn: &mut Connection<S>,
    rider: RiderNumber,
) -> Result<Option<Row>, StatementFault>
    ensures { Answers S.Store conn.old conn.new result (λ s m row. row ≡ open_row s m rider) }
{
    first_row(
        conn,
        "SELECT * FROM rentals WHERE rider = ?1 AND finish IS NULL ORDER BY rental LIMIT 1",
        params![rider.get()],
    )
}

/// The last row of `rentals`.
fn find_last_rental<S: Alter>(conn: &mut Connection<S>) -> Result<Option<Row>, StatementFault>
    ensures { Answers S.Store conn.old conn.new result (λ s m row. row ≡ last_row s m Rentals) }
{
    first_row(
        conn,
        "SELECT * FROM rentals ORDER BY rental DESC LIMIT 1",
        &[],
    )
}

/// How the rental of a row was closed; none where it is open.
fn read_closing(alloc: Global, row: &Row) -> Result<Option<Closing>, StatementFault>
    ensures { IfOk result (λ x. (closing : _) → HasClosing row.now closing → x ≡ closing) }
{
    let to_station = optional_ident_at(alloc, row, rentals::TO_STATION)?;
    let finish = optional_moment_at(row, rentals::FINISH)?;
    let fare = optional_cents_at(row, rentals::FARE)?;
    match (finish, fare) {
        (Some(finish), Some(fare)) => Ok(Some(Closing {
            to_station,
            finish,
            fare,
        })),
        (None, None) => Ok(None),
        _ => Err(StatementFault::StoreFailed),
    }
}

/// The rental that stands in a row of `rentals`, whatever its number, and the sum of its refunds. `NoMemory` where its
/// texts find no room; a row that holds what the product never writes is `StoreFailed`.
pub fn read_rental(alloc: Global, row: &Row) -> Result<(Rental, Cents), StatementFault>
    ensures { (number : _) → IsReadOf (λ x. rental_row number x.0 x.1) row.now result }
{
    let rider = number_at(row, rentals::RIDER)?;
    let bike = number_at(row, rentals::BIKE)?;
    let plan = ident_at(alloc, row, rentals::PLAN_ID)?;
    let from_station = ident_at(alloc, row, rentals::FROM_STATION)?;
    let start = moment_at(row, rentals::START)?;
    let closing = read_closing(alloc, row)?;
    let refunded = cents_at(row, rentals::REFUNDED)?;
    let rental = Rental {
        rider,
        bike,
        plan,
        from_station,
        start,
        closing,
    };
    Ok((rental, refunded))
}

/// The rental of this number, if there is one, and the sum of its refunds. `NoMemory` where its texts find no room;
/// every other fault is the database's.
pub fn find_rental<S: Alter>(
    alloc: Global,
    conn: &mut Connection<S>,
    rental: RentalNumber,
) -> Result<Option<(Rental, Cents)>, StatementFault>
    ensures { Answers S.Store conn.old conn.new result (λ s m x. x ≡ stored_rental_at s rental) }
{
    match find_rental_row(conn, rental)? {
        Some(row) => Ok(Some(read_rental(alloc, &row)?)),
        None => Ok(None),
    }
}

/// The number of the rental in the row, where there is one.
fn read_number(row: &Option<Row>) -> Result<Option<RentalNumber>, StatementFault>
    ensures { IfOk result (λ rental. HoldsRental row.now rental) }
{
    match row {
        Some(row) => {
            let rental = number_at(row, rentals::RENTAL)?;
            Ok(Some(rental))
        }
        None => Ok(None),
    }
}

/// The number of the rider's open rental, where there is one. Where the caller knows that each open rental is its
/// rider's newest, as `newest_tells` answers, the newest alone is read; else his rentals are walked. Every fault is the
/// database's.
pub fn find_open_rental<S: Alter>(
    conn: &mut Connection<S>,
    rider: RiderNumber,
    newest_tells: bool,
) -> Result<Option<RentalNumber>, StatementFault>
    ensures { Answers S.Store conn.old conn.new result
        (λ s m x. (IsTrue newest_tells → NewestTells s) → x ≡ open_number s rider) }
{
    if newest_tells {
        return find_newest_open(conn, rider);
    }
    let row = find_open_row(conn, rider)?;
    read_number(&row)
}

/// Whether the rider has an open rental, as `find_open_rental` finds it. Every fault is the database's.
pub fn is_riding<S: Alter>(
    conn: &mut Connection<S>,
    rider: RiderNumber,
    newest_tells: bool,
) -> Result<bool, StatementFault>
    ensures { Answers S.Store conn.old conn.new result
        (λ s m x. (IsTrue newest_tells → NewestTells s) → x ≡ rides s rider) }
{
    let rental = find_open_rental(conn, rider, newest_tells)?;
    Ok(rental.is_some())
}

/// How many rentals there are, archived ones included, as the last one's number says, or what was archived where there
/// is none behind it. Every fault is the database's.
pub fn rental_count<S: Alter>(conn: &mut Connection<S>) -> Result<u32, StatementFault>
    ensures { Answers S.Store conn.old conn.new result (λ s m x. x ≡ last_number s.rentals) }
{
    match find_last_rental(conn)? {
        Some(row) => number_in(&row, rentals::RENTAL),
        None => Ok(find_archived(conn)?.rentals),
    }
}

/// How many rentals are open, by their rows: no more than there are bicycles. `NoMemory` where these find no room;
/// every other fault is the database's.
pub fn open_rental_count<S: Alter>(conn: &mut Connection<S>) -> Result<u32, StatementFault>
    ensures { Answers S.Store conn.old conn.new result (λ s m x. x ≡ open_rentals s) }
{
    let rows = select_open(conn)?;
    count_rows(rows.as_slice())
}
