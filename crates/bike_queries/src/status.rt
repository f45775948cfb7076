//! The stations with their counts in byte order of their identifiers, page by page.

ghost use Rattle.std.specs.Prelude.{IfOk, option_map};
ghost use Rattle.std.specs.List.{AllZip};
ghost use Rattle.bike_schema.specs.Answers.{Answers};
ghost use Rattle.bike_fleet_reads.specs.Holds.{HoldsNumbers};
ghost use Rattle.bike_queries.specs.Pages.{AreStatuses, IsStatusBy, ReadsCounted, page_after};

use crate::counts::count_types;
use crate::stations::{read_info, select_stations};
use bike_book::columns::stations;
use bike_book::counts_by_type;
use bike_fields::Ident;
use bike_fleet_reads::{DockNumbers, StationNumbers, by_type_at, dock_total_at};
use bike_office_reads::ReadRow;
use bike_operator::{Counts, StationInfo};
use bike_schema::StatementFault;
use sqlite::{Alter, Connection, Row};
use std::alloc::Global;
use std::collections::VecDeque;

/// A station with its counts: what GBFS's `station_status` shows of it.
#[derive(Drop)]
pub struct StationStatus {
    /// The station.
    pub info: StationInfo,
    /// Its counts.
    pub counts: Counts,
}

/// A station with the numbers that its row keeps.
#[derive(Drop)]
pub(crate) struct CountedStation {
    info: StationInfo,
    numbers: StationNumbers,
}

impl ReadRow for CountedStation {
    ghost reads = { λ row x. ReadsCounted row x };

    fn read(alloc: Global, row: &Row) -> Result<CountedStation, StatementFault> {
        let info = read_info(alloc, row)?;
        let numbers = read_numbers(alloc, row)?;
        Ok(CountedStation { info, numbers })
    }
}

/// The numbers of its docks and its bicycles by type that stand in a row of `stations_4`.
fn read_numbers(alloc: Global, row: &Row) -> Result<StationNumbers, StatementFault>
    ensures { IfOk result (HoldsNumbers row.now) }
{
    let free = dock_total_at(row, stations::FREE)?;
    let broken = dock_total_at(row, stations::BROKEN)?;
    let docks = DockNumbers { free, broken };
    let by_type = by_type_at(alloc, row, stations::BY_TYPE)?;
    Ok(StationNumbers { docks, by_type })
}

/// The station with its counts, of the types with these identifiers.
fn read_status(
    alloc: Global,
    station: CountedStation,
    type_ids: &[Ident],
) -> Result<StationStatus, StatementFault>
    ensures { IfOk result (IsStatusBy type_ids.now station) }
{
    let Ok(room) = Vec::with_capacity(alloc, type_ids.len()) else {
        return Err(StatementFault::NoMemory);
    };
    let CountedStation { info, numbers } = station;
    let told = numbers.by_type.as_slice();
    let counts = count_types(alloc, type_ids, told, numbers.docks, room)?;
    Ok(StationStatus { info, counts })
}

/// The stations with their counts, of the types with these identifiers.
fn read_statuses(
    alloc: Global,
    stations: Vec<CountedStation>,
    type_ids: &[Ident],
) -> Result<VecDeque<StationStatus>, StatementFault>
    ensures { IfOk result (λ page. AllZip (IsStatusBy type_ids.now) stations.items page.items) }
{
    let Ok(mut page) = VecDeque::with_capacity(alloc, stations.len()) else {
        return Err(StatementFault::NoMemory);
    };
    for station in stations {
        let status = read_status(alloc, station, type_ids)?;
        if page.push_back(status).is_err() {
            return Err(StatementFault::NoMemory);
        }
    }
    Ok(page)
}

/// The next stations whose identifiers come after this one, or the first of all, with their counts: as many as a page
/// holds, by one statement.
///
/// The counts are of the bicycles of the types with these identifiers, in their order. With those that `find_type_ids`
/// answers they are of all bicycles. `NoMemory` where a text or a list finds no room; every other fault is the
/// database's.
pub fn find_statuses_after<S: Alter>(
    alloc: Global,
    conn: &mut Connection<S>,
    after: Option<&Ident>,
    type_ids: &[Ident],
) -> Result<VecDeque<StationStatus>, StatementFault>
    ensures { Answers S.Store conn.old conn.new result (λ s m page.
        AreStatuses s type_ids.now (page_after (option_map (λ id. id.now) after.entry) s.stations) page.items) }
{
    counts_by_type();
    let stations = select_stations::<CountedStation, S>(alloc, conn, after)?;
    read_statuses(alloc, stations, type_ids)
}
