//! The verdict on the tables of an earlier version, once they are raised.

ghost use Rattle.std.specs.Prelude.{◌≡◌, take, option_map};
ghost use Rattle.bike_audit.specs.Audit.{row_name};
ghost use Rattle.bike_sql.specs.Calls.{ReadsWhere};
ghost use Rattle.bike_schema.specs.Tables.{IsOurs, tables_of};
ghost use Rattle.bike_recognition.specs.Names.{table_named};
ghost use Rattle.bike_migrate.specs.Stations.{AreCopies};
ghost use Rattle.bike_judges.specs.Judging.{key_row};
ghost use Rattle.bike_book.specs.Tables.{Stations};
ghost use Rattle.bike_migrate.specs.Verdicts.{IsVerdictBefore, IsVerdictAt, first_of, lesser_of, against_stations};

use crate::stations::first_over;
use bike_audit::{BadRow, Watch, first_bad_row};
use bike_judges::{BadKey, least};
use bike_recognition::{Earlier, TableName};
use bike_schema::StatementFault;
use sqlite::{Alter, Connection, Row};
use std::alloc::Global;
use std::cmp::Ordering;

/// How the table stands to that of stations in the order of the tables.
fn against_stations(table: TableName) -> Ordering
    ensures { result ≡ against_stations (table_named table) }
{
    match table {
        TableName::Meta
        | TableName::System
        | TableName::Plans
        | TableName::Segments
        | TableName::Types
        | TableName::Regions => Ordering::Less,
        TableName::Stations => Ordering::Equal,
        TableName::Docks
        | TableName::Bikes
        | TableName::Trucks
        | TableName::Riders
        | TableName::Rentals
        | TableName::Orders
        | TableName::Entries
        | TableName::History
        | TableName::MoreNames
        | TableName::Books => Ordering::Greater,
    }
}

/// The bad row of a station.
fn bad_station(key: BadKey) -> BadRow
    ensures table { (row_name result).0 ≡ Stations }
    ensures key { (row_name result).1 ≡ key_row key }
{
    BadRow {
        table: TableName::Stations,
        key,
    }
}

/// The first of a bad row and of a bad station.
fn lesser(found: BadRow, key: BadKey) -> Option<BadRow>
    ensures { option_map row_name result
        ≡ lesser_of (against_stations (table_named found.table)) (row_name found) (key_row key) }
{
    match against_stations(found.table) {
        Ordering::Less => Some(found),
        Ordering::Equal => match least(Some(found.key), Some(key)) {
            Some(key) => Some(bad_station(key)),
            None => None,
        },
        Ordering::Greater => Some(bad_station(key)),
    }
}

/// The first of the two, if there is one.
fn first_of(found: Option<BadRow>, over: Option<Row>) -> Option<BadRow>
    ensures { option_map row_name result ≡ first_of (option_map row_name found) (option_map (take 1) over) }
{
    match (found, over) {
        (found, None) => found,
        (None, Some(station)) => Some(bad_station(BadKey::Columns(station, 1))),
        (Some(found), Some(station)) => lesser(found, BadKey::Columns(station, 1)),
    }
}

/// The first bad row of the raised tables, by the rules of the audit and the bound of docks, where `rows` are those of
/// the old table of stations. `watch` is told of each table before it is judged.
fn judge_bounded<S: Alter, P: Watch>(
    alloc: Global,
    conn: &mut Connection<S>,
    rows: &[Row],
    watch: &mut P,
) -> Result<Option<BadRow>, StatementFault>
    ensures { ReadsWhere S.Store IsOurs conn.old conn.new result
        (λ db bad. AreCopies rows.now (tables_of db).stations
        → IsVerdictBefore (tables_of db) (option_map row_name bad)) }
{
    let found = first_bad_row(alloc, conn, watch)?;
    let over = first_over(rows)?;
    Ok(first_of(found, over))
}

/// The first bad row of the tables raised from this version, where `rows` are those of its old table of stations.
/// `watch` is told of each table before it is judged.
pub(crate) fn judge<S: Alter, P: Watch>(
    alloc: Global,
    conn: &mut Connection<S>,
    earlier: Earlier,
    rows: &[Row],
    watch: &mut P,
) -> Result<Option<BadRow>, StatementFault>
    ensures { ReadsWhere S.Store IsOurs conn.old conn.new result
        (λ db bad. AreCopies rows.now (tables_of db).stations
        → IsVerdictAt earlier (tables_of db) (option_map row_name bad)) }
{
    if earlier.bounds_docks() {
        judge_bounded(alloc, conn, rows, watch)
    } else {
        first_bad_row(alloc, conn, watch)
    }
}
