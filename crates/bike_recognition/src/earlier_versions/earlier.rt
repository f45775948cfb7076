//! The earlier versions.

ghost use Rattle.std.specs.Prelude.{◌≡◌};
ghost use Rattle.bike_recognition.specs.Wanted.{Defines, AsksRowidsOf};
ghost use Rattle.bike_recognition.specs.EarlierVersions.Earlier.{number_of, stations_name, stations_layout};
ghost use Rattle.bike_recognition.specs.EarlierVersions.Earlier.{bounds_docks};

/// How many docks a station had at most at versions 1 and 2.
pub const MOST_DOCKS_BEFORE: u32 = 200;

/// An earlier version of the schema.
#[derive(Clone, Copy, Debug, PartialEq, Eq)]
pub enum Earlier {
    /// Version 1: no regions, no further names.
    First,
    /// Version 2: no further names.
    Second,
    /// Version 3: with both, and stations of as many docks as today.
    Third,
}

impl Earlier {
    /// Its number.
    pub fn number(self) -> u32
        ensures { result ≡ number_of self }
    {
        match self {
            Earlier::First => 1,
            Earlier::Second => 2,
            Earlier::Third => 3,
        }
    }

    /// The name of its table of stations.
    pub fn stations_name(self) -> &'static str
        ensures { result.now ≡ stations_name self }
    {
        match self {
            Earlier::First => "stations",
            Earlier::Second => "stations_2",
            Earlier::Third => "stations_3",
        }
    }

    /// Whether a station has at most `MOST_DOCKS_BEFORE` docks.
    pub fn bounds_docks(self) -> bool
        ensures { result ≡ bounds_docks self }
    {
        match self {
            Earlier::First | Earlier::Second => true,
            Earlier::Third => false,
        }
    }

    /// The statement that made its table of stations.
    pub(crate) fn stations_definition(self) -> &'static str
        ensures { Defines result.now (stations_layout self) }
    {
        match self {
            Earlier::First => {
                "CREATE TABLE stations (station_id TEXT PRIMARY KEY NOT NULL, name TEXT NOT NULL, \
                 lat INTEGER NOT NULL, lon INTEGER NOT NULL, docks INTEGER NOT NULL, installed INTEGER NOT NULL, \
                 renting INTEGER NOT NULL, \"returning\" INTEGER NOT NULL, reported INTEGER NOT NULL, \
                 free INTEGER NOT NULL, broken INTEGER NOT NULL) STRICT"
            }
            Earlier::Second => {
                "CREATE TABLE stations_2 (station_id TEXT PRIMARY KEY NOT NULL, name TEXT NOT NULL, \
                 lat INTEGER NOT NULL, lon INTEGER NOT NULL, docks INTEGER NOT NULL, installed INTEGER NOT NULL, \
                 renting INTEGER NOT NULL, \"returning\" INTEGER NOT NULL, reported INTEGER NOT NULL, \
                 free INTEGER NOT NULL, broken INTEGER NOT NULL, region_id TEXT) STRICT"
            }
            Earlier::Third => {
                "CREATE TABLE stations_3 (station_id TEXT PRIMARY KEY NOT NULL, name TEXT NOT NULL, \
                 lat INTEGER NOT NULL, lon INTEGER NOT NULL, docks INTEGER NOT NULL, installed INTEGER NOT NULL, \
                 renting INTEGER NOT NULL, \"returning\" INTEGER NOT NULL, reported INTEGER NOT NULL, \
                 free INTEGER NOT NULL, broken INTEGER NOT NULL, region_id TEXT) STRICT"
            }
        }
    }

    /// The query that answers all rowids of its table of stations, in order.
    pub(crate) fn stations_rowids(self) -> &'static str
        ensures { AsksRowidsOf (stations_layout self) result.now }
    {
        match self {
            Earlier::First => "SELECT rowid FROM stations ORDER BY rowid",
            Earlier::Second => "SELECT rowid FROM stations_2 ORDER BY rowid",
            Earlier::Third => "SELECT rowid FROM stations_3 ORDER BY rowid",
        }
    }
}
