//! The statements on `stations_4` and `docks`.

ghost use Rattle.bike_accepted.specs.declared.change.Change.TheVariants as change;
ghost use Rattle.bike_book.specs.declared.row_change.RowChange.TheVariants as row;
ghost use Rattle.bike_book.specs.Writes.{record_write, write_of};
ghost use Rattle.bike_schema.specs.Calls.{Writes};
ghost use Rattle.bike_writes.specs.RowChanges.{bikes_write};

use crate::columns::{seconds_of, text_in};
use bike_book::table;
use bike_catalogue::Station;
use bike_fields::{Ident, Position};
use bike_fixed::Moment;
use bike_schema::{OpenTransaction, StatementFault};
use bike_sql::write::run;
use sqlite::{Alter, params};

/// Adds a station: installed, renting, returning, with all docks available, in no region, and with no bicycles.
pub(crate) fn add_station<S: Alter>(
    tx: &mut OpenTransaction<'_, S>,
    station: &Station,
    reported: Moment,
) -> Result<(), StatementFault>
    ensures { Writes S.Store tx.old.conn tx.new.conn result
        (record_write (change.AddStation station.entry reported)) }
{
    run(
        tx,
        table!(insert stations),
        params![
            station.station_id().as_str(),
            station.name().as_str(),
            station.lat().microdegrees(),
            station.lon().microdegrees(),
            station.docks().get(),
            true,
            true,
            true,
            seconds_of(reported),
            station.docks().get(),
            0_i64,
            None::<i64>,
            "-"
        ],
    )
}

/// Sets a station's flags and its report.
pub(crate) fn set_station<S: Alter>(
    tx: &mut OpenTransaction<'_, S>,
    station: &Ident,
    is_installed: bool,
    is_renting: bool,
    is_returning: bool,
    reported: Moment,
) -> Result<(), StatementFault>
    ensures { Writes S.Store tx.old.conn tx.new.conn result
        (record_write (change.SetStation station.entry is_installed is_renting is_returning reported)) }
{
    run(
        tx,
        "UPDATE stations_4 SET installed = ?2, renting = ?3, \"returning\" = ?4, reported = ?5 WHERE station_id = ?1",
        params![
            station.as_str(),
            is_installed,
            is_renting,
            is_returning,
            seconds_of(reported)
        ],
    )
}

/// Sets how many docks of a station are available, how many are broken, and when the station reported last.
pub(crate) fn set_docks_reported<S: Alter>(
    tx: &mut OpenTransaction<'_, S>,
    station: &Ident,
    free: u32,
    broken: u32,
    reported: Moment,
) -> Result<(), StatementFault>
    ensures { Writes S.Store tx.old.conn tx.new.conn result
        (write_of (row.SetDocksReported station.entry free broken reported)) }
{
    run(
        tx,
        "UPDATE stations_4 SET free = ?2, broken = ?3, reported = ?4 WHERE station_id = ?1",
        params![station.as_str(), free, broken, seconds_of(reported)],
    )
}

/// Sets how many docks of a station are available, how many are broken, the text of its bicycles by type, and when the
/// station reported last.
pub(crate) fn set_bikes_reported<S: Alter>(
    tx: &mut OpenTransaction<'_, S>,
    station: &Ident,
    free: u32,
    broken: u32,
    by_type: &str,
    reported: Moment,
) -> Result<(), StatementFault>
    ensures { Writes S.Store tx.old.conn tx.new.conn result
        (bikes_write station.now free broken by_type.now reported) }
{
    run(
        tx,
        "UPDATE stations_4 SET free = ?2, broken = ?3, by_type = ?4, reported = ?5 WHERE station_id = ?1",
        params![
            station.as_str(),
            free,
            broken,
            by_type,
            seconds_of(reported)
        ],
    )
}

/// Sets the position of a station, in microdegrees.
pub(crate) fn move_station<S: Alter>(
    tx: &mut OpenTransaction<'_, S>,
    station: &Ident,
    position: &Position,
) -> Result<(), StatementFault>
    ensures { Writes S.Store tx.old.conn tx.new.conn result
        (record_write (change.MoveStation station.entry position.entry)) }
{
    run(
        tx,
        "UPDATE stations_4 SET lat = ?2, lon = ?3 WHERE station_id = ?1",
        params![
            station.as_str(),
            position.lat().microdegrees(),
            position.lon().microdegrees()
        ],
    )
}

/// Sets how many docks a station has, and how many of them are available.
pub(crate) fn set_dock_count<S: Alter>(
    tx: &mut OpenTransaction<'_, S>,
    station: &Ident,
    docks: u32,
    free: u32,
) -> Result<(), StatementFault>
    ensures { Writes S.Store tx.old.conn tx.new.conn result (write_of (row.SetDockCount station.entry docks free)) }
{
    run(
        tx,
        "UPDATE stations_4 SET docks = ?2, free = ?3 WHERE station_id = ?1",
        params![station.as_str(), docks, free],
    )
}

/// Sets the region in which a station stands; with none it stands in none.
pub(crate) fn set_region<S: Alter>(
    tx: &mut OpenTransaction<'_, S>,
    station: &Ident,
    region: Option<&Ident>,
) -> Result<(), StatementFault>
    ensures { Writes S.Store tx.old.conn tx.new.conn result
        (record_write (change.SetRegion station.entry region.entry)) }
{
    run(
        tx,
        "UPDATE stations_4 SET region_id = ?2 WHERE station_id = ?1",
        params![station.as_str(), text_in(region)],
    )
}

/// Adds a dock.
pub(crate) fn add_dock<S: Alter>(
    tx: &mut OpenTransaction<'_, S>,
    station: &Ident,
    dock: u32,
    is_broken: bool,
) -> Result<(), StatementFault>
    ensures { Writes S.Store tx.old.conn tx.new.conn result (write_of (row.AddDock station.entry dock is_broken)) }
{
    run(
        tx,
        table!(insert docks),
        params![station.as_str(), dock, is_broken],
    )
}

/// Sets whether a dock is broken.
pub(crate) fn set_dock<S: Alter>(
    tx: &mut OpenTransaction<'_, S>,
    station: &Ident,
    dock: u32,
    is_broken: bool,
) -> Result<(), StatementFault>
    ensures { Writes S.Store tx.old.conn tx.new.conn result (write_of (row.SetDock station.entry dock is_broken)) }
{
    run(
        tx,
        "UPDATE docks SET broken = ?3 WHERE station_id = ?1 AND dock = ?2",
        params![station.as_str(), dock, is_broken],
    )
}
