//! The stations with their further names in byte order of their identifiers, page by page.

ghost use Rattle.std.specs.Prelude.{◌≡◌, IfOk, filter, option_map, take};
ghost use Rattle.std.specs.Borrow.{sem};
ghost use Rattle.bike_sql.specs.Calls.{LendsWhere, WalksWhere};
ghost use Rattle.bike_schema.specs.Answers.{Answers};
ghost use Rattle.bike_schema.specs.Tables.{IsOurs, tables_of};
ghost use Rattle.bike_queries.specs.declared.pages.TheConstants.{STATIONS_A_PAGE};
ghost use Rattle.bike_queries.specs.After.{HoldsStation, begins_from, station_of};
ghost use Rattle.bike_queries.specs.Pages.{AreNamedStations, ArePage, ReadsInfo, ReadsUnnamed, id_of, page_after};

use crate::after::start_of;
use crate::columns::micro_at;
use crate::pages::{last_id, read_page};
use bike_book::columns::stations;
use bike_catalogue::{MoreName, Station};
use bike_fields::{Ident, NameKind};
use bike_office_reads::{ReadRow, collect_rows, select_names};
use bike_operator::StationInfo;
use bike_schema::{
    StatementFault, flag_at, ident_at, moment_at, name_at, number_at, optional_ident_at,
};
use sqlite::{Alter, Connection, Error, Row, Rows, params};
use std::alloc::Global;
use std::collections::VecDeque;

/// A station with its names in further languages.
#[derive(Drop)]
pub struct NamedStation {
    /// The station.
    pub info: StationInfo,
    /// Its further names, in byte order of their languages.
    pub names: Vec<MoreName>,
}

impl NamedStation {
    /// Its identifier.
    pub(crate) fn id(&self) -> &str
        ensures { result.now ≡ id_of self.now }
    {
        self.info.station.station_id().as_str()
    }
}

/// The station of a row, with no further name as yet.
impl ReadRow for NamedStation {
    ghost reads = { λ row x. ReadsUnnamed row x };

    fn read(alloc: Global, row: &Row) -> Result<NamedStation, StatementFault> {
        let info = read_info(alloc, row)?;
        let names = Vec::new(alloc);
        Ok(NamedStation { info, names })
    }
}

/// Begins to read the stations whose identifiers aren't below a text, as many as a page holds.
fn begin_stations<'a, S: Alter>(
    conn: &'a mut Connection<S>,
    start: &str,
) -> Result<Rows<'a, S>, Error>
    ensures* lends { sem 𝓛 (LendsWhere S.row S.Store IsOurs conn.entry result) }
    ensures walks { WalksWhere S.Store IsOurs conn.entry result
        (λ db. take STATIONS_A_PAGE (filter (begins_from start.now) (tables_of db).stations)) }
{
    conn.query(
        "SELECT * FROM stations_4 WHERE station_id >= ?1 ORDER BY station_id LIMIT 64",
        params![start],
    )
}

/// What is read of the next stations whose identifiers come after this one, or of the first of all: a page of them.
pub(crate) fn select_stations<R: ReadRow, S: Alter>(
    alloc: Global,
    conn: &mut Connection<S>,
    after: Option<&Ident>,
) -> Result<Vec<R>, StatementFault>
    ensures { Answers S.Store conn.old conn.new result
        (λ s m stations. ArePage R.reads s (option_map (λ id. id.now) after.entry) stations.items) }
{
    let start = start_of(after);
    let mut rows = begin_stations(conn, start.as_str())?;
    collect_rows(alloc, &mut rows)
}

/// The name, the place and the docks that stand in a row of `stations_4`.
fn read_station(alloc: Global, row: &Row) -> Result<Station, StatementFault>
    ensures { IfOk result (λ x. (y : _) → HoldsStation row.now y → x ≡ y.row) }
{
    let station_id = ident_at(alloc, row, stations::STATION_ID)?;
    let name = name_at(alloc, row, stations::NAME)?;
    let lat = micro_at(row, stations::LAT)?;
    let lon = micro_at(row, stations::LON)?;
    let docks = number_at(row, stations::DOCKS)?;
    Station::from_fields(station_id, name, lat, lon, docks).ok_or(StatementFault::StoreFailed)
}

/// The station that stands in a row of `stations_4`.
pub(crate) fn read_info(alloc: Global, row: &Row) -> Result<StationInfo, StatementFault>
    ensures { IfOk result (ReadsInfo row.now) }
{
    let station = read_station(alloc, row)?;
    let is_installed = flag_at(row, stations::INSTALLED)?;
    let is_renting = flag_at(row, stations::RENTING)?;
    let is_returning = flag_at(row, stations::RETURNING)?;
    let reported = moment_at(row, stations::REPORTED)?;
    let region = optional_ident_at(alloc, row, stations::REGION_ID)?;
    Ok(StationInfo {
        station,
        is_installed,
        is_renting,
        is_returning,
        reported,
        region,
    })
}

/// The next stations whose identifiers come after this one, or the first of all, as many as a page holds, by one
/// statement. With `translated` each has its further names, by a second statement; else none has any. `NoMemory` where
/// a text finds no room; every other fault is the database's.
pub fn find_stations_after<S: Alter>(
    alloc: Global,
    conn: &mut Connection<S>,
    after: Option<&Ident>,
    translated: bool,
) -> Result<VecDeque<NamedStation>, StatementFault>
    ensures { Answers S.Store conn.old conn.new result (λ s m page.
        AreNamedStations translated s (page_after (option_map (λ id. id.now) after.entry) s.stations) page.items) }
{
    let stations = select_stations::<NamedStation, S>(alloc, conn, after)?;
    if !translated {
        return Ok(VecDeque::from_vec(stations));
    }
    let Some(last) = last_id(stations.as_slice()) else {
        return Ok(VecDeque::new(alloc));
    };
    let start = start_of(after);
    let names = select_names(alloc, conn, NameKind::Station, start.as_str(), last)?;
    read_page(alloc, stations, names.as_slice())
}
