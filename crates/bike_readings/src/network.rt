//! The rows of regions, stations and docks.

ghost use Rattle.std.specs.Prelude.{◌≡◌, option_map};
ghost use Rattle.bike_readings.specs.Readings.{region_read, station_read, dock_read};
ghost use Rattle.bike_readings.specs.Views.{region_of, station_of, dock_of};

use crate::columns::{
    cents_in, flag_in, ident_in, ident_or_none_in, moment_in, name_in, number_in, signed_in,
    text_in,
};
use crate::part::Part;
use bike_book::columns::{docks, regions, stations};
use bike_fields::{DockCount, DockNumber, GREATEST_LATITUDE};
use bike_fixed::{GREATEST_COORDINATE, Moment, Within};

/// A row of `regions`.
#[derive(Clone, Copy)]
pub struct StoredRegion<'a> {
    pub region_id: &'a str,
    pub name: &'a str,
}

/// A row of `stations_4`.
#[derive(Clone, Copy)]
pub struct StoredStation<'a> {
    pub station_id: &'a str,
    pub name: &'a str,
    /// Its latitude, in microdegrees.
    pub lat: i64,
    /// Its longitude, in microdegrees.
    pub lon: i64,
    /// How many docks it has.
    pub docks: DockCount,
    pub is_installed: bool,
    pub is_renting: bool,
    pub is_returning: bool,
    /// When it last reported.
    pub reported: Moment,
    /// How many docks are available, as the row has it.
    pub free: i64,
    /// How many docks are broken, as the row has it.
    pub broken: Within<0, 4_294_967_295>,
    /// The region in which it stands, if any.
    pub region: Option<&'a str>,
    /// Its bicycles by type, as the row has them.
    pub by_type: &'a str,
}

/// A row of `docks`.
#[derive(Clone, Copy)]
pub struct StoredDock<'a> {
    /// Its station.
    pub station: &'a str,
    /// Its number there.
    pub dock: DockNumber,
    pub is_broken: bool,
}

/// What a row of `regions` spells.
pub fn read_region(part: Part<'_>) -> Option<StoredRegion<'_>>
    ensures { option_map region_of result ≡ region_read part.entry }
{
    if part.column_count() != regions::COLUMNS {
        return None;
    }
    let region_id = ident_in(&part, regions::REGION_ID)?;
    let name = name_in(&part, regions::NAME)?;
    Some(StoredRegion { region_id, name })
}

/// What a row of `stations_4` spells.
pub fn read_station(part: Part<'_>) -> Option<StoredStation<'_>>
    ensures { option_map station_of result ≡ station_read part.entry }
{
    if part.column_count() != stations::COLUMNS {
        return None;
    }
    let station_id = ident_in(&part, stations::STATION_ID)?;
    let name = name_in(&part, stations::NAME)?;
    let lat = signed_in(
        &part,
        stations::LAT,
        -i64::from(GREATEST_LATITUDE),
        i64::from(GREATEST_LATITUDE),
    )?;
    let lon = signed_in(
        &part,
        stations::LON,
        -i64::from(GREATEST_COORDINATE),
        i64::from(GREATEST_COORDINATE),
    )?;
    let docks = number_in(&part, stations::DOCKS)?;
    let is_installed = flag_in(&part, stations::INSTALLED)?;
    let is_renting = flag_in(&part, stations::RENTING)?;
    let is_returning = flag_in(&part, stations::RETURNING)?;
    let reported = moment_in(&part, stations::REPORTED)?;
    let free = cents_in(&part, stations::FREE)?;
    let broken = number_in(&part, stations::BROKEN)?;
    let region = ident_or_none_in(&part, stations::REGION_ID)?;
    let by_type = text_in(&part, stations::BY_TYPE)?;
    Some(StoredStation {
        station_id,
        name,
        lat,
        lon,
        docks,
        is_installed,
        is_renting,
        is_returning,
        reported,
        free: free.hundredths(),
        broken,
        region,
        by_type,
    })
}

/// What a row of `docks` spells.
pub fn read_dock(part: Part<'_>) -> Option<StoredDock<'_>>
    ensures { option_map dock_of result ≡ dock_read part.entry }
{
    if part.column_count() != docks::COLUMNS {
        return None;
    }
    let station = ident_in(&part, docks::STATION_ID)?;
    let dock = number_in(&part, docks::DOCK)?;
    let is_broken = flag_in(&part, docks::BROKEN)?;
    Some(StoredDock {
        station,
        dock,
        is_broken,
    })
}
