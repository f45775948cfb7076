//! The account of a station.

ghost use Rattle.std.specs.Prelude.{◌≡◌, option_map};
ghost use Rattle.bike_station_rules.specs.Stations.{begins, more, good, key, broken_at, docked_at};
ghost use Rattle.bike_station_rules.specs.Views.{docked_of};

use crate::by_type::ByType;
use crate::dock_set::DockSet;
use crate::lines::{DockedBike, HeadLine, ROW_AT, docked_bike, is_of};
use bike_book::columns::{docks, stations};
use bike_fields::{DockCount, DockNumber};
use bike_fixed::Within;
use bike_judges::{Account, BadKey, Opening};
use bike_readings::{Part, read_dock, read_station};
use bike_schema::StatementFault;
use sqlite::Row;
use std::alloc::Global;

/// What the lines of a station come to.
#[derive(Drop)]
pub(crate) struct StationAccount {
    /// The line of the station.
    head: HeadLine,
    /// How many docks it has.
    docks: DockCount,
    /// How many are available, as its row has it.
    free: i64,
    /// How many are broken, as its row has it.
    broken: Within<0, 4_294_967_295>,
    /// The docks that are broken.
    is_broken: DockSet,
    /// The docks that hold a bicycle.
    is_taken: DockSet,
    /// Its bicycles by type.
    by_type: ByType,
}

impl Account for StationAccount {
    ghost begins = { begins };

    ghost more = { more };

    ghost good = { good };

    ghost key = { key };

    fn begin(alloc: Global, line: &Row) -> Result<Opening<StationAccount>, StatementFault> {
        if !is_of(line, 0) {
            return Ok(Opening::Item);
        }
        let Some(station) = read_station(Part::of(line, ROW_AT, stations::COLUMNS)) else {
            return Ok(Opening::Unread);
        };
        Ok(Opening::Head(StationAccount {
            head: HeadLine::of(line)?,
            docks: station.docks,
            free: station.free,
            broken: station.broken,
            is_broken: DockSet::new(),
            is_taken: DockSet::new(),
            by_type: ByType::new(alloc, station.by_type)?,
        }))
    }

    fn add(&mut self, line: &Row) -> Result<(), StatementFault> {
        if !self.head.owns(line) {
            return Ok(());
        }
        if let Some(bike) = docked_at(line) {
            let is_available = bike.is_fit && !self.is_broken.has(bike.dock);
            self.is_taken.put(bike.dock);
            self.by_type.add(bike.type_id, is_available)?;
        }
        if let Some(dock) = broken_at(line) {
            self.is_broken.put(dock);
        }
        Ok(())
    }

    fn is_good(&self, _before: u64) -> bool {
        let free = self.is_taken.count_others(&self.is_broken, self.docks);
        self.free == i64::from(free)
            && self.broken.get() == self.is_broken.count(self.docks)
            && self.by_type.is_told()
    }

    fn bad_key(self) -> BadKey {
        self.head.into_key()
    }
}

/// The dock that the line says is broken.
fn broken_at(line: &Row) -> Option<DockNumber>
    ensures { result ≡ broken_at line.now }
{
    if !is_of(line, 1) {
        return None;
    }
    match read_dock(Part::of(line, ROW_AT, docks::COLUMNS)) {
        Some(dock) if dock.is_broken => Some(dock.dock),
        _ => None,
    }
}

/// The bicycle that the line says is in a dock.
fn docked_at(line: &Row) -> Option<DockedBike<'_>>
    ensures { option_map docked_of result ≡ docked_at line.now }
{
    if !is_of(line, 2) {
        return None;
    }
    docked_bike(line)
}
