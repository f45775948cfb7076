//! A table of a day of a database.

ghost use Rattle.std.specs.Prelude.{◌≡◌, ◌≤◌, false};
ghost use Rattle.sqlite.specs.State.{HasCleanDisk};
ghost use Rattle.sqlite.specs.Held.{state};
ghost use Rattle.sqlite_trees.specs.View.{doubt};
ghost use Rattle.bike_schema.specs.Stands.{AllLeft, TreesStandFor};
ghost use Rattle.bike_desk.specs.Desk.{desk_state, OfOperator};
ghost use Rattle.bike_audit.specs.Adoption.{LeavesAll};
ghost use Rattle.bike_app.specs.Program.{CrashLeaves};
ghost use Rattle.bike_app.specs.Days.{ReportsAt, ReportsInMemory, TellsReported, table_end};

use bike_audit::{Inspection, NoWatch, adopt, look};
use bike_batch::{DayTableFault, day_csv};
use bike_console::Fault;
use bike_day_texts::DayTable;
use bike_desk::Desk;
use sqlite::{Alter, Connection};
use std::alloc::Global;
use std::io::Write;

/// What the program tells of a table that was asked for.
fn told(written: Result<(), DayTableFault>) -> Result<u64, Fault>
    ensures { result ≡ table_end written }
{
    match written {
        Ok(()) => Ok(0),
        Err(fault) => Err(Fault::of_table(fault)),
    }
}

/// Writes the table of a desk.
fn report_at<S: Alter, W: Write>(
    alloc: Global,
    desk: &mut Desk<S>,
    table: DayTable,
    date: &str,
    zone: &str,
    writer: &mut W,
) -> Result<u64, Fault>
    ensures clean { doubt (desk_state S.Store desk.old).is_clean ≤ doubt (desk_state S.Store desk.new).is_clean }
    ensures told { OfOperator S.Store desk.old desk.new (λ s.
        ReportsAt table date.now zone.now S.Store desk.new s (W.contents writer.old) (W.contents writer.new) result) }
    ensures left { OfOperator S.Store desk.old desk.new (λ s.
        AllLeft (desk_state S.Store desk.new) (desk_state S.Store desk.old).may_leave) }
{
    let written = day_csv(alloc, desk, date, zone, table, writer);
    told(written)
}

/// Writes the table of a database that has none of the product's tables: that of the empty operator, over a database in
/// memory which is made for it and let go at the end.
fn report_nobodys<W: Write>(
    alloc: Global,
    table: DayTable,
    date: &str,
    zone: &str,
    writer: &mut W,
) -> Result<u64, Fault>
    ensures { ReportsInMemory table date.now zone.now (W.contents writer.old) (W.contents writer.new) result }
{
    let conn = Connection::open_in_memory(alloc)?;
    match adopt(alloc, conn) {
        Ok(mut desk) => report_at(alloc, &mut desk, table, date, zone, writer),
        Err(fault) => Fault::refused(fault).1,
    }
}

/// Looks at the database over a connection outside a transaction and writes a table of a day of it: the day of that
/// date (`YYYY-MM-DD`) in that zone (POSIX's `TZ`). Nothing of the database changes: what a crash may leave of it is
/// what it could leave before. Gives the connection back with the number 0, or with the fault at which that ended:
/// `BadDate`, `BadZone` and `DayOutOfRange` come where there is no such day, and then nothing is written.
pub fn report_day<S: Alter, W: Write>(
    alloc: Global,
    table: DayTable,
    date: &str,
    zone: &str,
    conn: Connection<S>,
    writer: &mut W,
) -> (Connection<S>, Result<u64, Fault>)
    requires { conn.in_transaction ≡ false }
    ensures clean { doubt (state S.Store conn).is_clean ≤ doubt (state S.Store result.0).is_clean }
    ensures told { HasCleanDisk (state S.Store result.0)
        → TellsReported table date.now zone.now S.Store
        (W.contents writer.old) (W.contents writer.new) conn result.0 result.1 }
    ensures kept { CrashLeaves S.Store conn result.0 TreesStandFor }
    ensures stays { LeavesAll S.Store conn result.0 }
{
    match look(alloc, conn, &mut NoWatch) {
        Ok(Inspection::Sound(conn)) => {
            let mut desk = Desk::over(conn);
            let end = report_at(alloc, &mut desk, table, date, zone, writer);
            (desk.close(), end)
        }
        Ok(Inspection::Empty(conn)) => {
            let end = report_nobodys(alloc, table, date, zone, writer);
            (conn, end)
        }
        Err(fault) => Fault::refused(fault),
    }
}
