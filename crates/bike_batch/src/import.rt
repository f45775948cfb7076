//! Importing a table.

ghost use Rattle.std.specs.Prelude.{◌≡◌, ◌≢◌, ◌<◌, ◌≤◌, Err, IfOk};
ghost use Rattle.std.specs.Io.KnownBytes.{Keeps};
ghost use Rattle.sqlite_trees.specs.View.{doubt};
ghost use Rattle.bike_schema.specs.Stands.{AllLeft};
ghost use Rattle.bike_desk.specs.Desk.{desk_state, KeepsDatabase, OfOperator};
ghost use Rattle.bike_desk.specs.Runs.{StopsBy};
ghost use Rattle.bike_batch.specs.ImportServing.{desk_fault};
ghost use Rattle.bike_batch.specs.Imports.{AllChangeNothing, Imports, StandsAfterSome};

use crate::import_fault::ImportFault;
use crate::row::import_row;
use crate::table::{next_record, open_table, take_header};
use bike_desk::{Desk, DeskFault};
use bike_fields::Ident;
use bike_fixed::Moment;
use csv::StringRecord;
use sqlite::Alter;
use std::alloc::Global;
use std::io::Read;

/// An import serves so many rows at most. A table with as many or more ends in `TooManyRows`.
pub const MOST_ROWS: u64 = 1_000_000;

/// Serves a table of stations, in CSV, row by row. Its header is `station_id,name,lat,lon,docks`, as a record. Row
/// number `n`, from 1, is the request to add its station at the moment, which the caller `import:NAME` sends with the
/// key `row-n`; its coordinates are in degrees, and its name stands without escapes. Answers how many rows were served,
/// each accepted.
///
/// The import ends at the first row that is unreadable or refused: `Unreadable` and `Row` name it, and the rows before
/// it stay. A row with a bad field is refused as such before the desk is asked. A table of which each row comes again
/// or is refused changes nothing of the database.
///
/// One record is held at a time, of 64 KiB or little more: a longer one ends in `Read`. A table of 1,000,000 rows or
/// more ends in `TooManyRows` when so many are served. Where memory for a record is refused the fault is
/// `Desk(NoMemory)`. A stopped desk answers `Desk(Stopped)` before anything is read.
pub fn import_stations<S: Alter, R: Read>(
    alloc: Global,
    desk: &mut Desk<S>,
    moment: Moment,
    name: &Ident,
    reader: &mut R,
) -> Result<u64, ImportFault>
    // The rows that were accepted, in order, and what a crash may leave.
    ensures clean { doubt (desk_state S.Store desk.old).is_clean ≤ doubt (desk_state S.Store desk.new).is_clean }
    ensures imports { OfOperator S.Store desk.old desk.new (λ s.
        Imports S.Store desk.new s moment name.now (R.remaining reader.old) result) }
    ensures left { OfOperator S.Store desk.old desk.new (λ s.
        AllLeft (desk_state S.Store desk.new) (StandsAfterSome s)) }
    // Rows that change nothing leave the database.
    ensures rests { OfOperator S.Store desk.old desk.new (λ s.
        AllChangeNothing moment name.now s (R.remaining reader.old)
        → result ≢ Err (ImportFault.Desk DeskFault.StoreFailed) → KeepsDatabase S.Store desk.old desk.new) }
    // The end: a fault of the desk, or the number of rows.
    ensures stops { StopsBy desk.old desk.new (desk_fault result) }
    ensures refused { result ≡ Err (ImportFault.Desk DeskFault.Stopped)
        → Keeps (R.remaining reader.old) (R.remaining reader.new) }
    ensures few { IfOk result (λ count. count < 1000000) }
{
    if desk.stopped() {
        return Err(ImportFault::Desk(DeskFault::Stopped));
    }
    let mut table = open_table(alloc, reader);
    let mut row = StringRecord::new(alloc);
    take_header(&mut table, &mut row)?;
    'rows: for count in 0..MOST_ROWS {
        table.get_ref().begin_record();
        if !next_record(&mut table, &mut row, count + 1)? {
            return Ok(count);
        }
        import_row(alloc, desk, moment, name, count + 1, &row)?;
    }
    Err(ImportFault::TooManyRows)
}
