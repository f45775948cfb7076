//! Tables of earlier versions that the newest doesn't have.

ghost use Rattle.bike_recognition.specs.Wanted.{Defines, AsksRowidsOf};
ghost use Rattle.bike_recognition.specs.EarlierVersions.Earlier.{old_layout};

use crate::earlier_versions::earlier::Earlier;

/// A table of earlier versions, other than `kept`.
#[derive(Clone, Copy)]
pub(crate) enum OldTable {
    /// The table of stations of this version.
    Stations(Earlier),
    /// The table `counts` of each of them.
    Counts,
    /// The table `riders` of each of them.
    Riders,
}

impl OldTable {
    /// The statement that made it.
    pub(crate) fn definition(self) -> &'static str
        ensures { Defines result.now (old_layout self) }
    {
        match self {
            OldTable::Stations(earlier) => earlier.stations_definition(),
            OldTable::Counts => {
                "CREATE TABLE counts (station_id TEXT NOT NULL, type_id TEXT NOT NULL, available INTEGER NOT NULL, \
                 disabled INTEGER NOT NULL, PRIMARY KEY (station_id, type_id)) STRICT"
            }
            OldTable::Riders => {
                "CREATE TABLE riders (rider INTEGER PRIMARY KEY, blocked INTEGER NOT NULL, balance INTEGER NOT NULL) \
                 STRICT"
            }
        }
    }

    /// The query that answers all its rowids, in order.
    pub(crate) fn rowids_query(self) -> &'static str
        ensures { AsksRowidsOf (old_layout self) result.now }
    {
        match self {
            OldTable::Stations(earlier) => earlier.stations_rowids(),
            OldTable::Counts => "SELECT rowid FROM counts ORDER BY rowid",
            OldTable::Riders => "SELECT rider FROM riders ORDER BY rider",
        }
    }
}
