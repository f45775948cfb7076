//! The table of a day.

ghost use Rattle.std.specs.Prelude.{IsTrue};
ghost use Rattle.std.specs.Io.KnownBytes.{Keeps};
ghost use Rattle.bike_desk.specs.Desk.{OfOperator};
ghost use Rattle.bike_batch.specs.Ends.{EndsByDay, WritesDay, LeavesDesk};

use crate::day_fault::DayTableFault;
use crate::day_tables::{write_entries, write_rentals, write_requests};
use bike_day_texts::DayTable;
use bike_desk::Desk;
use bike_fixed::day_bounds;
use sqlite::Alter;
use std::alloc::Global;
use std::io::Write;

/// Writes a day's table of the operator for which the desk stands: its header, and the rows that lie in the day, by
/// number.
///
/// An entry lies in the day where it was booked, a rental in that where it ended, a request in that of the operator's
/// moment after it; `day_bounds` tells the day of a date (`YYYY-MM-DD`) and a zone (POSIX's `TZ`). `Day` comes exactly
/// where that refuses them, before the desk is asked, and then nothing is written. After `Write` a front of the table
/// is written, and not all; so it is after `NoMemory`, which is that of a line; after another fault of the desk a
/// front, or all. What is kept never changes. `NoMemory` and `Write` leave the desk as it was, `StoreFailed` stops it,
/// and a stopped desk answers `Stopped`, stays as it is and writes nothing.
pub fn day_csv<S: Alter, W: Write>(
    alloc: Global,
    desk: &mut Desk<S>,
    date: &str,
    zone: &str,
    table: DayTable,
    out: &mut W,
) -> Result<(), DayTableFault>
    ensures day { EndsByDay date.now zone.now (W.contents out.old) (W.contents out.new) result }
    ensures desk { LeavesDesk S.Store desk.old desk.new result }
    ensures wrote { OfOperator S.Store desk.old desk.new (λ s.
        WritesDay s table date.now zone.now (W.contents out.old) (W.contents out.new) result) }
    ensures nothing { IsTrue desk.old.is_stopped → Keeps (W.contents out.old) (W.contents out.new) }
{
    let (begin, until) = day_bounds(date, zone)?;
    match table {
        DayTable::Entries => write_entries(alloc, desk, begin, until, out),
        DayTable::Rentals => write_rentals(alloc, desk, begin, until, out),
        DayTable::Requests => write_requests(alloc, desk, begin, until, out),
    }
}
