//! Where a station stands.

ghost use Rattle.std.specs.Prelude.{◌≡◌};
ghost use Rattle.bike_fields.specs.Values.{IsLatitude, position_of_fields, position_within};

use crate::limits::GREATEST_LATITUDE;
use bike_fixed::Micro;
use std::marker::Model;

/// Where a station stands: its place in microdegrees (GBFS's `lat` and `lon`).
#[derive(Debug, Drop)]
pub struct Position {
    lat: Micro,
    lon: Micro,
}

impl Model for Position {
    ghost use Rattle.bike_fields.specs.Values.{PositionRow, IsLatitude};

    ghost Value = { PositionRow };

    ghost view = { λ a. record { lat = a.lat; lon = a.lon } };

    ghost invariant = { λ a. IsLatitude a.lat };
}

impl Position {
    /// The position at these coordinates, where the latitude is within 90 degrees.
    pub fn from_fields(lat: Micro, lon: Micro) -> Option<Position>
        ensures { result ≡ position_within (position_of_fields lat lon) }
    {
        if lat.microdegrees().unsigned_abs() > GREATEST_LATITUDE {
            return None;
        }
        Some(Position { lat, lon })
    }

    /// The latitude, within 90 degrees.
    pub fn lat(&self) -> Micro
        ensures value { result ≡ self.now.lat }
        ensures bounds { IsLatitude result }
    {
        self.lat
    }

    /// The longitude, within 180 degrees.
    pub fn lon(&self) -> Micro
        ensures { result ≡ self.now.lon }
    {
        self.lon
    }
}
