//! The rows of the old tables of stations, of riders and of requests.

ghost use Rattle.std.specs.Prelude.{◌≡◌, IfOk};
ghost use Rattle.sqlite_value.specs.Order.{column};
ghost use Rattle.sqlite_value.specs.Value.{owned};
ghost use Rattle.bike_sql.specs.Calls.{ReadsWhere};
ghost use Rattle.bike_recognition.specs.EarlierVersions.Earlier.{stations_layout};
ghost use Rattle.bike_recognition.specs.EarlierVersions.Riders.{HasRiders, old_riders};
ghost use Rattle.bike_recognition.specs.EarlierVersions.Kept.{KeptLies, kept_rows};
ghost use Rattle.bike_migrate.specs.Raised.{old_stations, AreOldRows, HasOld, HasOldTables};
ghost use Rattle.bike_migrate.specs.Stations.{AsksRows, may_hold, has_kinds, has_few, IsOver};

use bike_book::columns::stations;
use bike_recognition::{Earlier, MOST_DOCKS_BEFORE};
use bike_schema::StatementFault;
use sqlite::types::ValueRef;
use sqlite::{Alter, Connection, Row};
use sqlite_schema::schema::Kind;

/// The query that answers all rows of its table of stations, in the order of their keys.
fn stations_query(earlier: Earlier) -> &'static str
    ensures { AsksRows (stations_layout earlier) result.now }
{
    match earlier {
        Earlier::First => "SELECT * FROM stations ORDER BY station_id",
        Earlier::Second => "SELECT * FROM stations_2 ORDER BY station_id",
        Earlier::Third => "SELECT * FROM stations_3 ORDER BY station_id",
    }
}

/// All rows of its table of stations, in the order of their keys. The database stays as it is.
fn read_stations<S: Alter>(
    conn: &mut Connection<S>,
    earlier: Earlier,
) -> Result<Vec<Row>, StatementFault>
    ensures { ReadsWhere S.Store (HasOld earlier) conn.old conn.new result
        (λ db rows. rows.items ≡ old_stations earlier db) }
{
    let rows = conn.query_all(stations_query(earlier), &[])?;
    Ok(rows)
}

/// All rows of the old `riders`, in the order of the riders. The database stays as it is.
fn read_riders<S: Alter>(conn: &mut Connection<S>) -> Result<Vec<Row>, StatementFault>
    ensures { ReadsWhere S.Store HasRiders conn.old conn.new result (λ db rows. rows.items ≡ old_riders db) }
{
    let rows = conn.query_all("SELECT * FROM riders ORDER BY rider", &[])?;
    Ok(rows)
}

/// All rows of `kept`, in the order of their rowids. The database stays as it is.
fn read_kept<S: Alter>(conn: &mut Connection<S>) -> Result<Vec<Row>, StatementFault>
    ensures { ReadsWhere S.Store KeptLies conn.old conn.new result (λ db rows. rows.items ≡ kept_rows db) }
{
    let rows = conn.query_all("SELECT * FROM kept ORDER BY rowid", &[])?;
    Ok(rows)
}

/// The rows of the old tables of stations, of riders and of requests.
#[derive(Drop)]
pub(crate) struct OldRows {
    /// Those of stations, in the order of their keys.
    pub(crate) stations: Vec<Row>,
    /// Those of `riders`, in the order of the riders.
    pub(crate) riders: Vec<Row>,
    /// Those of `kept`, in the order of their rowids.
    pub(crate) kept: Vec<Row>,
}

/// All rows of the old tables of stations, of riders and of requests. The database stays as it is.
pub(crate) fn read_old<S: Alter>(
    conn: &mut Connection<S>,
    earlier: Earlier,
) -> Result<OldRows, StatementFault>
    ensures { ReadsWhere S.Store (HasOldTables earlier) conn.old conn.new result
        (λ db rows. AreOldRows earlier rows.stations.items rows.riders.items rows.kept.items db) }
{
    let stations = read_stations(conn, earlier)?;
    let riders = read_riders(conn)?;
    let kept = read_kept(conn)?;
    Ok(OldRows {
        stations,
        riders,
        kept,
    })
}

/// The row's value in a column, and NULL past its end.
pub(crate) fn value_at(row: &Row, at: usize) -> ValueRef<'_>
    ensures { owned result ≡ column row.now at }
{
    row.get_ref(at).unwrap_or(ValueRef::Null)
}

/// Whether the column holds what a column of the kind may hold.
fn may_hold(row: &Row, at: usize, kind: Kind) -> bool
    ensures { result ≡ may_hold kind (column row.now at) }
{
    match kind {
        Kind::Integer => matches!(value_at(row, at), ValueRef::Int(_) | ValueRef::Null),
        Kind::Text => matches!(value_at(row, at), ValueRef::Text(_) | ValueRef::Null),
        _ => false,
    }
}

/// Whether each column holds what a column of its kind may hold.
pub(crate) fn has_kinds(row: &Row, kinds: &[Kind]) -> bool
    ensures { result ≡ has_kinds row.now kinds.now }
{
    (0..kinds.len())
        .zip(kinds.iter())
        .all(|(at, kind)| may_hold(row, at, *kind))
}

/// Whether the station has no more docks than an earlier version allows.
fn has_few(row: &Row) -> bool
    ensures { result ≡ has_few row.now }
{
    match value_at(row, stations::DOCKS) {
        ValueRef::Int(docks) => docks <= i64::from(MOST_DOCKS_BEFORE),
        _ => true,
    }
}

/// A copy of the first station that has more docks than an earlier version allows.
pub(crate) fn first_over(rows: &[Row]) -> Result<Option<Row>, StatementFault>
    ensures { IfOk result (IsOver rows.now) }
{
    for row in rows {
        if !has_few(row) {
            return Ok(Some(row.copy()?));
        }
    }
    Ok(None)
}
