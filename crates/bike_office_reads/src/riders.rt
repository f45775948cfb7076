//! The riders.

ghost use Rattle.std.specs.Prelude.{◌≡◌, ◌≤◌, [], ◌∷◌, Some, IfOk};
ghost use Rattle.std.specs.FinMap as map;
ghost use Rattle.sqlite_sql.specs.Aggregate.{count};
ghost use Rattle.bike_operator.specs.declared.limits.TheConstants.{MOST_RIDERS};
ghost use Rattle.bike_operator.specs.View.{is_at_limit, rider_at, rider_balance};
ghost use Rattle.bike_book.specs.Tables.{Riders};
ghost use Rattle.bike_book.specs.Rows.{number_value};
ghost use Rattle.bike_book.specs.Found.{row_under, last_row, row_count};
ghost use Rattle.bike_schema.specs.Answers.{Answers, IsReadOf};
ghost use Rattle.bike_office_reads.specs.ReadRows.{IsBalanceOf, shown_rider_row};

use crate::numbers::{last_number, reaches};
use bike_book::columns::riders;
use bike_fields::RiderNumber;
use bike_fixed::Cents;
use bike_operator::{MOST_RIDERS, RiderView};
use bike_schema::{StatementFault, cents_at, flag_at, optional_ident_at};
use bike_sql::lookup::first_row;
use sqlite::{Alter, Connection, Row, params};
use std::alloc::Global;

/// The rider's row of `riders_4`.
pub fn find_rider_row<S: Alter>(
    conn: &mut Connection<S>,
    rider: RiderNumber,
) -> Result<Option<Row>, StatementFault>
    ensures { Answers S.Store conn.old conn.new result
        (λ s m row. row ≡ row_under s m Riders (number_value rider ∷ [])) }
{
    first_row(
        conn,
        "SELECT * FROM riders_4 WHERE rider = ?1",
        params![rider.get()],
    )
}

/// The rider that stands in a row of `riders_4`, whatever the number and the balance by archived entries.
fn read_rider(alloc: Global, row: &Row) -> Result<RiderView, StatementFault>
    ensures { (rider : _) (before : _) → IsReadOf (shown_rider_row rider before) row.now result }
{
    let is_blocked = flag_at(row, riders::BLOCKED)?;
    let plan = optional_ident_at(alloc, row, riders::PLAN_ID)?;
    let balance = cents_at(row, riders::BALANCE)?;
    Ok(RiderView {
        is_blocked,
        plan,
        balance,
    })
}

/// The balance that stands in a row of `riders_4`.
fn read_balance(row: &Row) -> Result<Cents, StatementFault>
    ensures { IfOk result (IsBalanceOf row.now) }
{
    cents_at(row, riders::BALANCE)
}

/// The last row of `riders_4`.
fn find_last_row<S: Alter>(conn: &mut Connection<S>) -> Result<Option<Row>, StatementFault>
    ensures { Answers S.Store conn.old conn.new result (λ s m row. row ≡ last_row s m Riders) }
{
    first_row(
        conn,
        "SELECT * FROM riders_4 ORDER BY rider DESC LIMIT 1",
        &[],
    )
}

/// The count of riders, as the database answers it.
fn count_riders<S: Alter>(conn: &mut Connection<S>) -> Result<Option<Row>, StatementFault>
    ensures { Answers S.Store conn.old conn.new result
        (λ s m row. row ≡ Some (count (row_count s m Riders) ∷ [])) }
{
    first_row(conn, "SELECT count(*) FROM riders_4", &[])
}

/// The last rider's number, 0 where there is none. There are at most so many riders, since their numbers begin at 1.
fn last_rider<S: Alter>(conn: &mut Connection<S>) -> Result<u32, StatementFault>
    ensures { Answers S.Store conn.old conn.new result (λ s m x. map.len s.riders ≤ x) }
{
    let row = find_last_row(conn)?;
    last_number(&row)
}

/// Whether there are as many riders as there may be, by a count over all of them.
fn is_count_full<S: Alter>(conn: &mut Connection<S>) -> Result<bool, StatementFault>
    ensures { Answers S.Store conn.old conn.new result (λ s m x. x ≡ is_at_limit MOST_RIDERS s.riders) }
{
    match count_riders(conn)? {
        Some(row) => reaches(&row, MOST_RIDERS),
        None => Err(StatementFault::StoreFailed),
    }
}

/// Whether there is a rider of this number. Every fault is the database's.
pub fn has_rider<S: Alter>(
    conn: &mut Connection<S>,
    rider: RiderNumber,
) -> Result<bool, StatementFault>
    ensures { Answers S.Store conn.old conn.new result (λ s m x. x ≡ map.contains_key s.riders rider) }
{
    let row = find_rider_row(conn, rider)?;
    Ok(row.is_some())
}

/// Whether there are as many riders as there may be. Every fault is the database's.
pub fn are_riders_full<S: Alter>(conn: &mut Connection<S>) -> Result<bool, StatementFault>
    ensures { Answers S.Store conn.old conn.new result (λ s m x. x ≡ is_at_limit MOST_RIDERS s.riders) }
{
    // A count goes over all riders, so it is asked only where the last number doesn't tell.
    let last = last_rider(conn)?;
    if last < MOST_RIDERS {
        return Ok(false);
    }
    is_count_full(conn)
}

/// The rider of this number, if there is one. `NoMemory` where its plan finds no room; every other fault is the
/// database's.
pub fn find_rider<S: Alter>(
    alloc: Global,
    conn: &mut Connection<S>,
    rider: RiderNumber,
) -> Result<Option<RiderView>, StatementFault>
    ensures { Answers S.Store conn.old conn.new result (λ s m x. x ≡ rider_at s rider) }
{
    match find_rider_row(conn, rider)? {
        Some(row) => Ok(Some(read_rider(alloc, &row)?)),
        None => Ok(None),
    }
}

/// The balance of the rider of a rental. `StoreFailed` where there is no rider of this number, as no rental lacks its
/// rider; every other fault is the database's.
pub fn find_rider_balance<S: Alter>(
    conn: &mut Connection<S>,
    rider: RiderNumber,
) -> Result<Cents, StatementFault>
    ensures { Answers S.Store conn.old conn.new result (λ s m balance. balance ≡ rider_balance s rider) }
{
    match find_rider_row(conn, rider)? {
        Some(row) => read_balance(&row),
        None => Err(StatementFault::StoreFailed),
    }
}
