//! The rows of the old tables, copied into the newest ones.

ghost use Rattle.std.specs.Prelude.{◌≡◌, ◌+◌, [], ◌∷◌, IsTrue, IfOk};
ghost use Rattle.sqlite_value.specs.declared.value.Value.TheVariants.{Int};
ghost use Rattle.sqlite_value.specs.Order.{column};
ghost use Rattle.sqlite_value.specs.Value.{owned};
ghost use Rattle.bike_book.specs.Tables.{Stations, Riders, History};
ghost use Rattle.bike_book.specs.Writes.{Add};
ghost use Rattle.bike_recognition.specs.EarlierVersions.Earlier.{with_text};
ghost use Rattle.bike_recognition.specs.EarlierVersions.Riders.{completed_rider};
ghost use Rattle.bike_schema.specs.Tables.{IsOurs};
ghost use Rattle.bike_migrate.specs.Calls.{ChangesInside};
ghost use Rattle.bike_migrate.specs.Raised.{version_write, station_writes, rider_writes, request_row, request_writes};
ghost use Rattle.bike_migrate.specs.Raised.{first_writes, later_writes, fill_writes, version_names, station_names};
ghost use Rattle.bike_migrate.specs.Raised.{rider_names, request_names, later_names, filled_names};
ghost use Rattle.bike_migrate.specs.Raised.{WritesOnly, WritesBeside, IsOursBeside};
ghost use Rattle.bike_migrate.specs.Stations.{IsStationRow, IsRiderRow, IsRequestRow, value_with_text};

use crate::counts::{old_text, read_counts};
use crate::inside::run;
use crate::stations::{has_kinds, value_at};
use bike_book::columns::stations;
use bike_book::{NEWEST, RequestCount, table};
use bike_recognition::check_open;
use bike_schema::StatementFault;
use sqlite::types::ValueRef;
use sqlite::{Alter, Connection, Row, params};
use sqlite_schema::schema::Kind;
use std::alloc::Global;
use std::array;

/// The kinds of a station's columns. An old row has none in the last, which counts as NULL.
const KINDS: [Kind; stations::COLUMNS] = table!(kinds stations);

/// The kinds of the columns of the old `riders`.
const RIDER_KINDS: [Kind; 3] = [Kind::Integer, Kind::Integer, Kind::Integer];

/// The kinds of the columns of `kept`.
const REQUEST_KINDS: [Kind; 4] = [Kind::Text, Kind::Text, Kind::Text, Kind::Text];

/// Sets the version in the row of `meta` to the newest, and the sums to 0, since nothing was archived.
fn set_version<S: Alter>(conn: &mut Connection<S>) -> Result<(), StatementFault>
    ensures { ChangesInside S.Store IsOurs conn.old conn.new result
        (WritesOnly version_names (version_write ∷ [])) }
{
    run(
        conn,
        "UPDATE meta SET version = ?2, cash = ?3, revenue = ?3 WHERE one = ?1",
        params![1_i64, NEWEST, 0_i64],
    )
}

/// Whether each column holds what it may hold in the newest table.
fn is_station(row: &Row) -> bool
    ensures { IsTrue result → IsStationRow row.now }
{
    has_kinds(row, &KINDS)
}

/// What the station's new row has in a column.
fn station_value<'a>(row: &'a Row, by_type: &'a str, at: usize) -> ValueRef<'a>
    ensures { owned result ≡ value_with_text by_type.now row.now at }
{
    if at == stations::BY_TYPE {
        ValueRef::Text(by_type.as_bytes())
    } else {
        value_at(row, at)
    }
}

/// Adds a station with the text of its bicycles by type.
fn put_station<S: Alter>(
    conn: &mut Connection<S>,
    row: &Row,
    by_type: &str,
) -> Result<(), StatementFault>
    requires { IsStationRow row.now }
    ensures { ChangesInside S.Store IsOurs conn.old conn.new result
        (WritesOnly station_names (Add Stations (with_text by_type.now row.now) ∷ [])) }
{
    let values: [ValueRef<'_>; stations::COLUMNS] = array::from_fn(|at| station_value(
        row, by_type, at,
    ));
    run(conn, table!(insert stations), &values)
}

/// Adds a station as the old tables have it. A sound database stores in a column only what suits it: anything else is
/// `StoreFailed`.
fn copy_station<S: Alter>(
    alloc: Global,
    conn: &mut Connection<S>,
    row: &Row,
) -> Result<(), StatementFault>
    ensures { ChangesInside S.Store IsOursBeside conn.old conn.new result
        (WritesBeside station_names (λ counts. station_writes counts (row.now ∷ []))) }
{
    let ValueRef::Text(station) = value_at(row, 0) else {
        return Err(StatementFault::StoreFailed);
    };
    let counts = read_counts(conn, station)?;
    let by_type = old_text(alloc, counts.as_slice())?;
    if is_station(row) {
        put_station(conn, row, by_type.as_str())
    } else {
        Err(StatementFault::StoreFailed)
    }
}

/// Sets the version in the row of `meta`, and adds these stations.
fn fill_stations<S: Alter>(
    alloc: Global,
    conn: &mut Connection<S>,
    rows: &[Row],
) -> Result<(), StatementFault>
    ensures { ChangesInside S.Store IsOursBeside conn.old conn.new result
        (WritesBeside station_names (λ counts. first_writes counts rows.now)) }
{
    set_version(conn)?;
    for row in rows {
        copy_station(alloc, conn, row)?;
    }
    Ok(())
}

/// Whether each column holds what it may hold in the newest table.
fn is_rider(row: &Row) -> bool
    ensures { IsTrue result → IsRiderRow row.now }
{
    has_kinds(row, &RIDER_KINDS)
}

/// Adds a rider of this number, of whom nothing was archived, with no plan.
fn put_rider<S: Alter>(
    conn: &mut Connection<S>,
    rider: i64,
    row: &Row,
) -> Result<(), StatementFault>
    requires number { column row.now 0 ≡ Int rider }
    requires kinds { IsRiderRow row.now }
    ensures { ChangesInside S.Store IsOurs conn.old conn.new result
        (WritesOnly rider_names (Add Riders (completed_rider row.now) ∷ [])) }
{
    let values = [
        ValueRef::Int(rider),
        value_at(row, 1),
        value_at(row, 2),
        ValueRef::Int(0),
        ValueRef::Null,
    ];
    run(conn, table!(insert riders), &values)
}

/// Adds a rider as the old table has it. A sound database stores in a column only what suits it: anything else is
/// `StoreFailed`.
fn copy_rider<S: Alter>(conn: &mut Connection<S>, row: &Row) -> Result<(), StatementFault>
    ensures { ChangesInside S.Store IsOurs conn.old conn.new result
        (WritesOnly rider_names (Add Riders (completed_rider row.now) ∷ [])) }
{
    let ValueRef::Int(rider) = value_at(row, 0) else {
        return Err(StatementFault::StoreFailed);
    };
    if is_rider(row) {
        put_rider(conn, rider, row)
    } else {
        Err(StatementFault::StoreFailed)
    }
}

/// Adds these riders.
fn fill_riders<S: Alter>(conn: &mut Connection<S>, rows: &[Row]) -> Result<(), StatementFault>
    ensures { ChangesInside S.Store IsOurs conn.old conn.new result
        (WritesOnly rider_names (rider_writes rows.now)) }
{
    check_open(conn)?;
    for row in rows {
        copy_rider(conn, row)?;
    }
    Ok(())
}

/// Whether each column holds what it may hold in the table of the history.
fn is_request(row: &Row) -> bool
    ensures { IsTrue result → IsRequestRow row.now }
{
    has_kinds(row, &REQUEST_KINDS)
}

/// Adds a request with this number, of moment 0.
fn put_request<S: Alter>(
    conn: &mut Connection<S>,
    number: RequestCount,
    row: &Row,
) -> Result<(), StatementFault>
    requires { IsRequestRow row.now }
    ensures { ChangesInside S.Store IsOurs conn.old conn.new result
        (WritesOnly request_names (Add History (request_row (number, row.now)) ∷ [])) }
{
    let values = [
        ValueRef::Int(number.number()),
        ValueRef::Int(0),
        value_at(row, 0),
        value_at(row, 1),
        value_at(row, 2),
        value_at(row, 3),
    ];
    run(conn, table!(insert history), &values)
}

/// Adds a request as `kept` has it. A sound database stores in a column only what suits it: anything else is
/// `StoreFailed`.
fn copy_request<S: Alter>(
    conn: &mut Connection<S>,
    number: RequestCount,
    row: &Row,
) -> Result<(), StatementFault>
    ensures { ChangesInside S.Store IsOurs conn.old conn.new result
        (WritesOnly request_names (Add History (request_row (number, row.now)) ∷ [])) }
{
    if is_request(row) {
        put_request(conn, number, row)
    } else {
        Err(StatementFault::StoreFailed)
    }
}

/// No request, as the number before the first.
fn no_requests() -> Result<RequestCount, StatementFault>
    ensures { IfOk result (λ number. number ≡ 0) }
{
    RequestCount::new(0).ok_or(StatementFault::StoreFailed)
}

/// The next number.
fn number_after(number: RequestCount) -> Result<RequestCount, StatementFault>
    ensures { IfOk result (λ next. next ≡ number + 1) }
{
    number.next().ok_or(StatementFault::StoreFailed)
}

/// Adds these requests, numbered from 1.
fn fill_requests<S: Alter>(conn: &mut Connection<S>, rows: &[Row]) -> Result<(), StatementFault>
    ensures { ChangesInside S.Store IsOurs conn.old conn.new result
        (WritesOnly request_names (request_writes rows.now)) }
{
    let mut number = no_requests()?;
    check_open(conn)?;
    for row in rows {
        number = number_after(number)?;
        copy_request(conn, number, row)?;
    }
    Ok(())
}

/// Adds these riders and requests.
fn fill_later<S: Alter>(
    conn: &mut Connection<S>,
    riders: &[Row],
    kept: &[Row],
) -> Result<(), StatementFault>
    ensures { ChangesInside S.Store IsOurs conn.old conn.new result
        (WritesOnly later_names (later_writes riders.now kept.now)) }
{
    fill_riders(conn, riders)?;
    fill_requests(conn, kept)
}

/// Sets the version, and adds the rows of the old tables.
pub(crate) fn fill<S: Alter>(
    alloc: Global,
    conn: &mut Connection<S>,
    stations: &[Row],
    riders: &[Row],
    kept: &[Row],
) -> Result<(), StatementFault>
    ensures { ChangesInside S.Store IsOursBeside conn.old conn.new result
        (WritesBeside filled_names (λ counts. fill_writes counts stations.now riders.now kept.now)) }
{
    fill_stations(alloc, conn, stations)?;
    fill_later(conn, riders, kept)
}
