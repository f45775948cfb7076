//! The newest rental of a rider, and whether each open rental is its rider's newest.

ghost use Rattle.std.specs.Prelude.{◌≡◌, ◌↔◌, IfOk, IsTrue, option_map};
ghost use Rattle.bike_book.specs.Rows.{rental_row};
ghost use Rattle.bike_book.specs.Tables.{Rentals};
ghost use Rattle.bike_book.specs.Found.{rows_of, rows_open};
ghost use Rattle.bike_book.specs.Stored.{stored_rental};
ghost use Rattle.bike_schema.specs.Answers.{Answers};
ghost use Rattle.bike_office_reads.specs.Newest.{NewestTells, newest_rental, number_if_open, newest_open};
ghost use Rattle.bike_office_reads.specs.Newest.{newest_number, open_after, ride_of};

use crate::numbers::last_number;
use bike_book::columns::rentals;
use bike_fields::{RentalNumber, RiderNumber};
use bike_schema::{StatementFault, number_at, optional_moment_at};
use bike_sql::lookup::first_row;
use sqlite::{Alter, Connection, Row, params};

/// An open rental: its number, and who rides.
#[derive(Clone, Copy)]
struct Ride {
    /// The number of the rental.
    number: RentalNumber,
    /// Who rides.
    rider: RiderNumber,
}

/// The row of the rider's newest rental.
fn find_newest_row<S: Alter>(
    conn: &mut Connection<S>,
    rider: RiderNumber,
) -> Result<Option<Row>, StatementFault>
    ensures { Answers S.Store conn.old conn.new result
        (λ s m row. row ≡ option_map (stored_rental s.entries.items) (newest_rental s rider)) }
{
    first_row(
        conn,
        "SELECT * FROM rentals WHERE rider = ?1 ORDER BY rental DESC LIMIT 1",
        params![rider.get()],
    )
}

/// The number of the rental that stands in a row of `rentals`, where it is open.
fn read_open_number(row: &Row) -> Result<Option<RentalNumber>, StatementFault>
    ensures { IfOk result (λ x. (number : _) (r : _) (refunded : _) → row.now ≡ rental_row number r refunded
        → x ≡ number_if_open (number, r)) }
{
    let finish = optional_moment_at(row, rentals::FINISH)?;
    if finish.is_some() {
        return Ok(None);
    }
    let number = number_at(row, rentals::RENTAL)?;
    Ok(Some(number))
}

/// The number of the rider's newest rental, where there is one and it is open. Every fault is the database's.
pub(crate) fn find_newest_open<S: Alter>(
    conn: &mut Connection<S>,
    rider: RiderNumber,
) -> Result<Option<RentalNumber>, StatementFault>
    ensures { Answers S.Store conn.old conn.new result (λ s m x. x ≡ newest_open s rider) }
{
    match find_newest_row(conn, rider)? {
        Some(row) => read_open_number(&row),
        None => Ok(None),
    }
}

/// The number of the rider's newest rental, and 0 where he has none. Every fault is the database's.
fn find_newest_number<S: Alter>(
    conn: &mut Connection<S>,
    rider: RiderNumber,
) -> Result<u32, StatementFault>
    ensures { Answers S.Store conn.old conn.new result (λ s m x. x ≡ newest_number s rider) }
{
    let row = find_newest_row(conn, rider)?;
    last_number(&row)
}

/// The open rentals of greater numbers than one, in the order of their numbers.
const OPEN_AFTER: &str =
    "SELECT * FROM rentals WHERE rental > ?1 AND finish IS NULL ORDER BY rental";

/// The row of the first open rental of a greater number.
fn find_open_row_after<S: Alter>(
    conn: &mut Connection<S>,
    number: u32,
) -> Result<Option<Row>, StatementFault>
    ensures { Answers S.Store conn.old conn.new result
        (λ s m row. row ≡ option_map (stored_rental s.entries.items) (open_after s number)) }
{
    first_row(conn, OPEN_AFTER, params![number])
}

/// The rows of all open rentals.
pub(crate) fn select_open<S: Alter>(conn: &mut Connection<S>) -> Result<Vec<Row>, StatementFault>
    ensures { Answers S.Store conn.old conn.new result (λ s m rows. rows.items ≡ rows_open (rows_of s m Rentals)) }
{
    let rows = conn.query_all(OPEN_AFTER, params![0_u32])?;
    Ok(rows)
}

/// The number and the rider that stand in a row of `rentals`.
fn read_ride(row: &Row) -> Result<Ride, StatementFault>
    ensures { IfOk result (λ x. (number : _) (r : _) (refunded : _) → row.now ≡ rental_row number r refunded
        → x ≡ ride_of (number, r)) }
{
    let number = number_at(row, rentals::RENTAL)?;
    let rider = number_at(row, rentals::RIDER)?;
    Ok(Ride { number, rider })
}

/// The first open rental of a greater number. Every fault is the database's.
fn find_open_after<S: Alter>(
    conn: &mut Connection<S>,
    number: u32,
) -> Result<Option<Ride>, StatementFault>
    ensures { Answers S.Store conn.old conn.new result
        (λ s m x. x ≡ option_map ride_of (open_after s number)) }
{
    match find_open_row_after(conn, number)? {
        Some(row) => Ok(Some(read_ride(&row)?)),
        None => Ok(None),
    }
}

/// Whether each open rental is its rider's newest, so that the newest alone tells if he is riding. It asks for the open
/// rentals one after another, and so reads each rental once. Every fault is the database's.
pub fn newest_tells<S: Alter>(conn: &mut Connection<S>) -> Result<bool, StatementFault>
    ensures { Answers S.Store conn.old conn.new result (λ s m x. IsTrue x ↔ NewestTells s) }
{
    let mut next = find_open_after(conn, 0)?;
    // Each step goes on to a greater number: there are no more than rentals.
    'rentals: for _ in 0..usize::MAX {
        let Some(ride) = next else {
            return Ok(true);
        };
        let number = ride.number.get();
        if find_newest_number(conn, ride.rider)? != number {
            return Ok(false);
        }
        next = find_open_after(conn, number)?;
    }
    Err(StatementFault::StoreFailed)
}
