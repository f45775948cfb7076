//! The test of docks.

ghost use Rattle.std.specs.Prelude.{take};
ghost use Rattle.bike_station_rules.specs.Docks.{is_good_dock};

use bike_book::columns::{docks, stations};
use bike_judges::{BadKey, LineTest};
use bike_readings::{Part, read_dock, read_station};
use bike_schema::StatementFault;
use sqlite::Row;

/// Where the row of a dock stands in its line.
const DOCK_AT: usize = 0;

/// Where that of its station stands.
const STATION_AT: usize = DOCK_AT + docks::COLUMNS;

/// A dock is good that its station has. A line has the row of a dock with that of its station.
#[derive(Drop)]
pub(crate) struct DockTest;

impl LineTest for DockTest {
    ghost test = { λ test before line. is_good_dock line };

    ghost key = { λ test line. take 2 line };

    fn is_good(&self, _before: u64, line: &Row) -> Result<bool, StatementFault> {
        let Some(dock) = read_dock(Part::of(line, DOCK_AT, docks::COLUMNS)) else {
            return Ok(false);
        };
        let Some(station) = read_station(Part::of(line, STATION_AT, stations::COLUMNS)) else {
            return Ok(false);
        };
        Ok(dock.dock.get() <= station.docks.get())
    }

    fn bad_key(&self, line: &Row) -> Result<BadKey, StatementFault> {
        Ok(BadKey::Columns(line.copy()?, 2))
    }
}
