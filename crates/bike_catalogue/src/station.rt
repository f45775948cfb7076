//! Stations.

ghost use Rattle.std.specs.Prelude.{◌≡◌, IfOk, IfSome};
ghost use Rattle.bike_fields.specs.Fault.{Tests};
ghost use Rattle.bike_fields.specs.Values.{IsLatitude};
ghost use Rattle.bike_catalogue.specs.RowFaults.{MakesStation, station_fault};
ghost use Rattle.bike_catalogue.specs.Rows.{IsStation, station_of_fields, station_within};

use bike_fields::{
    DockCount, Field, FieldFault, GREATEST_LATITUDE, Ident, Name, coordinate, in_range,
};
use bike_fixed::{GREATEST_COORDINATE, Micro};
use std::alloc::{AllocError, Global};
use std::marker::Model;

/// A station with its place in microdegrees and its docks (GBFS's `station_information`).
#[derive(Debug, Drop)]
pub struct Station {
    station_id: Ident,
    name: Name,
    lat: Micro,
    lon: Micro,
    docks: DockCount,
}

impl Model for Station {
    ghost use Rattle.bike_fields.specs.Values.{IsLatitude};
    ghost use Rattle.bike_catalogue.specs.Rows.{StationRow};

    ghost Value = { StationRow };

    ghost view = { λ a. record {
      station_id = a.station_id;
      name = a.name;
      lat = a.lat;
      lon = a.lon;
      docks = a.docks;
    } };

    ghost invariant = { λ a. IsLatitude a.lat };
}

impl Station {
    /// The station of these fields, else the first bad field with the first bound that it breaks: an identifier, a
    /// name, a latitude whose size is at most `GREATEST_LATITUDE` and a longitude of at most 180,000,000 microdegrees,
    /// and 1 to `MOST_DOCKS` docks. Memory is asked for only where all keep their bounds, and `NoMemory` comes where
    /// that is refused.
    pub fn new(
        alloc: Global,
        station_id: &str,
        name: &str,
        lat: i32,
        lon: i32,
        docks: u32,
    ) -> Result<Station, FieldFault>
        ensures { MakesStation (station_of_fields station_id.now name.now lat lon docks) result }
    {
        let (lat, lon, docks) = Station::tested(station_id, name, lat, lon, docks)?;
        Ok(Station::keep(alloc, station_id, name, lat, lon, docks)?)
    }

    /// The place and the docks, where all fields keep their bounds, else the first bad field; this needs no memory.
    #[tactic(auto, unfolding(crate::specs::RowFaults::station_fault))]
    fn tested(
        station_id: &str,
        name: &str,
        lat: i32,
        lon: i32,
        docks: u32,
    ) -> Result<(Micro, Micro, DockCount), FieldFault>
        ensures value { Tests (λ kept. kept) (lat, lon, docks)
            (station_fault (station_of_fields station_id.now name.now lat lon docks)) result }
        ensures good { IfOk result
            (λ kept. IsStation (station_of_fields station_id.now name.now kept.0 kept.1 kept.2)) }
    {
        let _ = Ident::tested(Field::Station, station_id)?;
        let _ = Name::tested(Field::Name, name)?;
        let lat = coordinate(Field::Lat, lat, GREATEST_LATITUDE)?;
        let lon = coordinate(Field::Lon, lon, GREATEST_COORDINATE)?;
        let docks: DockCount = in_range(Field::Docks, docks)?;
        Ok((lat, lon, docks))
    }

    /// The station of fields that keep their bounds; an error where memory was refused.
    fn keep(
        alloc: Global,
        station_id: &str,
        name: &str,
        lat: Micro,
        lon: Micro,
        docks: DockCount,
    ) -> Result<Station, AllocError>
        requires { IsStation (station_of_fields station_id.now name.now lat lon docks) }
        ensures { IfOk result (λ made. made ≡ station_of_fields station_id.now name.now lat lon docks) }
    {
        Ok(Station {
            station_id: Ident::of(alloc, station_id)?,
            name: Name::of(alloc, name)?,
            lat,
            lon,
            docks,
        })
    }

    /// The station of these fields, which keeps its bounds, where the latitude is within 90 degrees; else None.
    pub fn from_fields(
        station_id: Ident,
        name: Name,
        lat: Micro,
        lon: Micro,
        docks: DockCount,
    ) -> Option<Station>
        ensures value { result ≡ station_within (station_of_fields station_id name lat lon docks) }
        ensures bounds { IfSome result IsStation }
    {
        if lat.microdegrees().unsigned_abs() > GREATEST_LATITUDE {
            return None;
        }
        Some(Station {
            station_id,
            name,
            lat,
            lon,
            docks,
        })
    }

    /// The station's identifier.
    pub fn station_id(&self) -> &Ident
        ensures { result.now ≡ self.now.station_id }
    {
        &self.station_id
    }

    /// The station's name.
    pub fn name(&self) -> &Name
        ensures { result.now ≡ self.now.name }
    {
        &self.name
    }

    /// The latitude, within 90 degrees.
    pub fn lat(&self) -> Micro
        ensures value { result ≡ self.now.lat }
        ensures bounds { IsLatitude result }
    {
        self.lat
    }

    /// The longitude, within 180 degrees.
    pub fn lon(&self) -> Micro
        ensures { result ≡ self.now.lon }
    {
        self.lon
    }

    /// How many docks it has.
    pub fn docks(&self) -> DockCount
        ensures { result ≡ self.now.docks }
    {
        self.docks
    }
}
