//! The statements on `stations_4`.

ghost use Rattle.std.specs.Prelude.{◌≡◌, [], ◌∷◌, false, IfOk, Some};
ghost use Rattle.std.specs.FinMap.{contains_key};
ghost use Rattle.sqlite.specs.declared.types.Value.TheVariants.{Text};
ghost use Rattle.sqlite_sql.specs.Aggregate.{count};
ghost use Rattle.bike_operator.specs.declared.limits.TheConstants.{MOST_STATIONS};
ghost use Rattle.bike_operator.specs.View.{is_at_limit, station_at};
ghost use Rattle.bike_book.specs.Tables.{Stations};
ghost use Rattle.bike_book.specs.Found.{row_count, row_under};
ghost use Rattle.bike_schema.specs.Answers.{Answers};
ghost use Rattle.bike_fleet_reads.specs.Fleet.{AreNumbersAt, IsStationRow, NoDockIsBroken, has_broken};
ghost use Rattle.bike_fleet_reads.specs.Holds.{HoldsAny, HoldsDockNumbers, HoldsNumbers, HoldsStation};

use crate::by_type::by_type_at;
use crate::columns::{dock_total_at, is_full};
use bike_book::columns::stations;
use bike_book::{CountedType, counts_by_type};
use bike_fields::{DockTotal, Ident};
use bike_operator::{MOST_STATIONS, StationView};
use bike_schema::{StatementFault, flag_at, number_at};
use bike_sql::lookup::first_row;
use sqlite::{Alter, Connection, Row, params};
use std::alloc::Global;

/// The numbers of a station's docks.
#[derive(Clone, Copy, Debug, PartialEq, Eq)]
pub struct DockNumbers {
    /// How many are available: empty and not broken.
    pub free: DockTotal,
    /// How many are broken.
    pub broken: DockTotal,
}

/// The numbers of a station's docks, and its bicycles by type.
#[derive(Drop)]
pub struct StationNumbers {
    /// The numbers of its docks.
    pub docks: DockNumbers,
    /// Its bicycles by type.
    pub by_type: Vec<CountedType>,
}

/// Whether some dock of the station is broken whose numbers these are. Where there is no such station, none is.
pub fn has_broken(numbers: &Option<StationNumbers>) -> bool
    ensures value { result ≡ has_broken numbers.now }
    ensures works { result ≡ false → NoDockIsBroken numbers.now }
{
    match numbers {
        Some(numbers) => numbers.docks.broken.get() != 0,
        None => false,
    }
}

/// A station as a command sees it, and its numbers, both of its row; `None` where there is no such station.
#[derive(Drop)]
pub struct StationRow {
    /// The station.
    pub station: Option<StationView>,
    /// Its numbers.
    pub numbers: Option<StationNumbers>,
}

/// The station's row.
fn select_station<S: Alter>(
    conn: &mut Connection<S>,
    station: &Ident,
) -> Result<Option<Row>, StatementFault>
    ensures { Answers S.Store conn.old conn.new result
        (λ s m row. row ≡ row_under s m Stations (Text station.now ∷ [])) }
{
    first_row(
        conn,
        "SELECT * FROM stations_4 WHERE station_id = ?1",
        params![station.as_str()],
    )
}

/// The stored row as a station.
fn station_of(row: &Option<Row>) -> Result<Option<StationView>, StatementFault>
    ensures { IfOk result (λ station. HoldsAny HoldsStation row.now station) }
{
    match row {
        Some(row) => {
            let docks = number_at(row, stations::DOCKS)?;
            let is_installed = flag_at(row, stations::INSTALLED)?;
            let is_renting = flag_at(row, stations::RENTING)?;
            let is_returning = flag_at(row, stations::RETURNING)?;
            Ok(Some(StationView {
                docks,
                is_installed,
                is_renting,
                is_returning,
            }))
        }
        None => Ok(None),
    }
}

/// The numbers of docks in the stored row.
fn dock_numbers_in(row: &Row) -> Result<DockNumbers, StatementFault>
    ensures { IfOk result (HoldsDockNumbers row.now) }
{
    let free = dock_total_at(row, stations::FREE)?;
    let broken = dock_total_at(row, stations::BROKEN)?;
    Ok(DockNumbers { free, broken })
}

/// The numbers of docks and the bicycles by type in the stored row.
fn numbers_of(alloc: Global, row: &Option<Row>) -> Result<Option<StationNumbers>, StatementFault>
    ensures { IfOk result (λ numbers. HoldsAny HoldsNumbers row.now numbers) }
{
    match row {
        Some(row) => {
            let docks = dock_numbers_in(row)?;
            let by_type = by_type_at(alloc, row, stations::BY_TYPE)?;
            Ok(Some(StationNumbers { docks, by_type }))
        }
        None => Ok(None),
    }
}

/// The station and its numbers in the stored row.
fn station_row_of(alloc: Global, row: &Option<Row>) -> Result<StationRow, StatementFault>
    ensures { IfOk result (λ x. HoldsAny HoldsStation row.now x.station × HoldsAny HoldsNumbers row.now x.numbers) }
{
    let station = station_of(row)?;
    let numbers = numbers_of(alloc, row)?;
    Ok(StationRow { station, numbers })
}

/// How many stations there are, as the database answers it.
fn count_stations<S: Alter>(conn: &mut Connection<S>) -> Result<Option<Row>, StatementFault>
    ensures { Answers S.Store conn.old conn.new result (λ s m row. row ≡ Some (count (row_count s m Stations) ∷ [])) }
{
    first_row(conn, "SELECT count(*) FROM stations_4", &[])
}

/// The station with this identifier.
pub fn find_station<S: Alter>(
    conn: &mut Connection<S>,
    station: &Ident,
) -> Result<Option<StationView>, StatementFault>
    ensures { Answers S.Store conn.old conn.new result (λ s m x. x ≡ station_at s station.now) }
{
    let row = select_station(conn, station)?;
    station_of(&row)
}

/// Whether there is a station with this identifier.
pub fn has_station<S: Alter>(
    conn: &mut Connection<S>,
    station: &Ident,
) -> Result<bool, StatementFault>
    ensures { Answers S.Store conn.old conn.new result (λ s m x. x ≡ contains_key s.stations station.now) }
{
    let row = select_station(conn, station)?;
    Ok(row.is_some())
}

/// The station with this identifier, and its numbers, by one read.
pub fn find_station_row<S: Alter>(
    alloc: Global,
    conn: &mut Connection<S>,
    station: &Ident,
) -> Result<StationRow, StatementFault>
    ensures { Answers S.Store conn.old conn.new result (λ s m x. IsStationRow s station.now x) }
{
    counts_by_type();
    let row = select_station(conn, station)?;
    station_row_of(alloc, &row)
}

/// How many docks of the station are available and how many are broken, and its bicycles by type; `None` where there is
/// no such station.
pub fn find_dock_numbers<S: Alter>(
    alloc: Global,
    conn: &mut Connection<S>,
    station: &Ident,
) -> Result<Option<StationNumbers>, StatementFault>
    ensures { Answers S.Store conn.old conn.new result (λ s m x. AreNumbersAt s station.now x) }
{
    counts_by_type();
    let row = select_station(conn, station)?;
    numbers_of(alloc, &row)
}

/// Whether there are as many stations as there may be, by a count over all of them.
pub fn are_stations_full<S: Alter>(conn: &mut Connection<S>) -> Result<bool, StatementFault>
    ensures { Answers S.Store conn.old conn.new result (λ s m x. x ≡ is_at_limit MOST_STATIONS s.stations) }
{
    let answer = count_stations(conn)?;
    is_full(&answer, MOST_STATIONS)
}
