//! The test of stations by their rows, each with its region.

ghost use Rattle.std.specs.Prelude.{◌≡◌, take, option_map};
ghost use Rattle.bike_book.specs.declared.columns.regions.TheConstants as regions;
ghost use Rattle.bike_readings.specs.Readings.{region_read};
ghost use Rattle.bike_judges.specs.Lines.{part};
ghost use Rattle.bike_station_rules.specs.declared.station_rows.TheConstants.{REGION_AT};
ghost use Rattle.bike_station_rules.specs.StationRows.{has_region, is_good_station};

use bike_book::columns::{regions, stations};
use bike_fixed::Moment;
use bike_judges::{BadKey, LineTest};
use bike_operator::MOST_STATIONS;
use bike_readings::{Part, read_region, read_station};
use bike_schema::StatementFault;
use sqlite::Row;

/// Where the row of a station stands in its line.
const STATION_AT: usize = 0;

/// Where that of its region stands.
const REGION_AT: usize = STATION_AT + stations::COLUMNS;

/// A station is good for which there is room, which reported by now, and of which the region is there, if it names one.
/// A line has the row of a station with that of its region.
#[derive(Drop)]
pub(crate) struct StationTest {
    /// The operator's moment.
    pub(crate) now: Moment,
}

/// Whether the region is there that a station names, if it names one.
fn has_region(region: Option<&str>, line: &Row) -> bool
    ensures { result ≡ has_region (option_map (λ text. text.now) region.entry)
        (region_read (part REGION_AT regions.COLUMNS line.now)) }
{
    match region {
        Some(_) => read_region(Part::of(line, REGION_AT, regions::COLUMNS)).is_some(),
        None => true,
    }
}

impl LineTest for StationTest {
    ghost test = { λ test before line. is_good_station test.now before line };

    ghost key = { λ test line. take 1 line };

    fn is_good(&self, before: u64, line: &Row) -> Result<bool, StatementFault> {
        let Some(station) = read_station(Part::of(line, STATION_AT, stations::COLUMNS)) else {
            return Ok(false);
        };
        Ok(
            before < u64::from(MOST_STATIONS)
                && station.reported.seconds() <= self.now.seconds()
                && has_region(station.region, line),
        )
    }

    fn bad_key(&self, line: &Row) -> Result<BadKey, StatementFault> {
        Ok(BadKey::Columns(line.copy()?, 1))
    }
}
