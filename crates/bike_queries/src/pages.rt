//! A page of stations, each read with its further names: those rows that begin with its identifier.

ghost use Rattle.std.specs.Prelude.{◌≡◌, ◌≤◌, IfOk, option_map, take, true, length};
ghost use Rattle.std.specs.List.{All, AllZip};
ghost use Rattle.bike_queries.specs.Pages.{AreApart, EndsWith, ReadsNamed, id_of, is_own, own_rows};

use crate::stations::NamedStation;
use bike_office_reads::{NameRow, read_names};
use bike_schema::StatementFault;
use std::alloc::Global;
use std::collections::VecDeque;

/// The most stations that one statement answers. A page is a bounded part of a walk, and no list of all stations: a
/// statement costs the engine as much as several rows do, and the stations of a page share it.
pub const STATIONS_A_PAGE: usize = 64;

/// Whether the row begins with the identifier.
fn is_own(id: &str, row: &NameRow) -> bool
    ensures { result ≡ is_own id.now row.now }
{
    id == row.id()
}

/// How many of the rows in front are those of the identifier.
fn count_own(id: &str, rows: &[NameRow]) -> usize
    ensures few { result ≤ length rows.now }
    ensures own { All (λ row. is_own id.now row ≡ true) (take result rows.now) }
{
    let mut own = 0;
    for row in rows {
        if !is_own(id, row) {
            return own;
        }
        own += 1;
    }
    own
}

/// The identifier of the last station; `None` where there is none.
pub(crate) fn last_id(stations: &[NamedStation]) -> Option<&str>
    ensures { EndsWith stations.now (option_map (λ id. id.now) result) }
{
    match stations.split_last() {
        Some((last, _)) => Some(last.id()),
        None => None,
    }
}

/// The station with the names that stand in its own rows.
fn read_named(
    alloc: Global,
    station: NamedStation,
    own: &[NameRow],
) -> Result<NamedStation, StatementFault>
    ensures { IfOk result (ReadsNamed station own.now) }
{
    let names = read_names(alloc, own)?;
    let info = station.info;
    Ok(NamedStation { info, names })
}

/// Reads each station with its own among the rows, which stand in the order of the stations. `NoMemory` where the page
/// or a name finds no room, `StoreFailed` where a row holds no name or is left as no station's, which no sound database
/// has.
pub(crate) fn read_page(
    alloc: Global,
    stations: Vec<NamedStation>,
    rows: &[NameRow],
) -> Result<VecDeque<NamedStation>, StatementFault>
    ensures { AreApart id_of stations.items → IfOk result
        (λ page. AllZip (λ station x. ReadsNamed station (own_rows (id_of station) rows.now) x)
        stations.items page.items) }
{
    let mut page = VecDeque::new(alloc);
    let mut rest = rows;
    for station in stations {
        let number = count_own(station.id(), rest);
        let (own, later) = rest.split_at(number);
        let named = read_named(alloc, station, own)?;
        if page.push_back(named).is_err() {
            return Err(StatementFault::NoMemory);
        }
        rest = later;
    }
    if !rest.is_empty() {
        return Err(StatementFault::StoreFailed);
    }
    Ok(page)
}
