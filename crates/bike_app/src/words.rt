//! What the program does at each of its words.

ghost use Rattle.std.specs.Prelude.{◌≡◌, ◌≤◌, false};
ghost use Rattle.sqlite.specs.State.{HasCleanDisk};
ghost use Rattle.sqlite.specs.Held.{state};
ghost use Rattle.sqlite_trees.specs.View.{doubt};
ghost use Rattle.bike_schema.specs.Stands.{TreesStandFor};
ghost use Rattle.bike_audit.specs.Adoption.{LeavesAll};
ghost use Rattle.bike_command_line.specs.Program.{IsWithinOnFile};
ghost use Rattle.bike_app.specs.Program.{CrashLeaves};
ghost use Rattle.bike_app.specs.Raises.{CrashLeavesRaised, WritesLine};
ghost use Rattle.bike_app.specs.Words.{Does, DoesInMemory, IsRaise, Looks, MayStand, TellsLookedAt, TellsTakenUp};

use crate::day::report_day;
use crate::feed::{moment_of, publish};
use crate::history::report_history;
use crate::import::import_from;
use crate::program::serve;
use crate::raise::raise_up;
use bike_audit::{Inspection, NoWatch, Watch, adopt_watched, look};
use bike_command_line::FileTask;
use bike_console::Fault;
use bike_fixed::Moment;
use bike_stream::write_whole;
use sqlite::{Alter, Connection};
use std::alloc::Global;
use std::io::{Read, Write};

/// Writes a line; `WriteFailed` where the output fails.
pub(crate) fn write_line<W: Write>(writer: &mut W, line: &str) -> Result<u64, Fault>
    ensures { WritesLine (W.contents writer.old) (W.contents writer.new) line.now result }
{
    match write_whole(writer, line.as_bytes()) {
        Ok(()) => Ok(0),
        Err(_) => Err(Fault::WriteFailed),
    }
}

/// Takes the connection into service, and tells that by this line.
fn take_up<S: Alter, W: Write, P: Watch>(
    alloc: Global,
    line: &str,
    conn: Connection<S>,
    writer: &mut W,
    watch: &mut P,
) -> (Connection<S>, Result<u64, Fault>)
    requires { conn.in_transaction ≡ false }
    ensures clean { doubt (state S.Store conn).is_clean ≤ doubt (state S.Store result.0).is_clean }
    ensures told { HasCleanDisk (state S.Store result.0)
        → TellsTakenUp S.Store (W.contents writer.old) (W.contents writer.new) conn result.0 line.now result.1 }
    ensures kept { CrashLeaves S.Store conn result.0 TreesStandFor }
{
    match adopt_watched(alloc, conn, watch) {
        Ok(desk) => (desk.close(), write_line(writer, line)),
        Err(fault) => Fault::refused(fault),
    }
}

/// Looks at the database, which stays as it is, and tells by this line that it may be served.
fn look_over<S: Alter, W: Write, P: Watch>(
    alloc: Global,
    line: &str,
    conn: Connection<S>,
    writer: &mut W,
    watch: &mut P,
) -> (Connection<S>, Result<u64, Fault>)
    requires { conn.in_transaction ≡ false }
    ensures clean { doubt (state S.Store conn).is_clean ≤ doubt (state S.Store result.0).is_clean }
    ensures told { HasCleanDisk (state S.Store result.0)
        → TellsLookedAt S.Store (W.contents writer.old) (W.contents writer.new) conn result.0 line.now result.1 }
    ensures kept { CrashLeaves S.Store conn result.0 TreesStandFor }
    ensures stays { LeavesAll S.Store conn result.0 }
{
    match look(alloc, conn, watch) {
        Ok(Inspection::Sound(conn)) => (conn, write_line(writer, line)),
        Ok(Inspection::Empty(conn)) => (conn, write_line(writer, line)),
        Err(fault) => Fault::refused(fault),
    }
}

/// Does the task over the connection, which is outside a transaction: `Init` takes it into service and tells that by
/// the line `ready`, `Raise` raises it to the newest version, as `raise_up` does, `Lines` serves the input, as `serve`
/// does, and `Import` takes the input's stations in, as `import_from`. `Check` looks at it and tells by the line
/// `sound` that it may be served, `Feed` writes a feed, as `publish` does, `Day` a table, as `report_day`, and
/// `History` the history, as `report_history`: these four change nothing, and make no tables. Only `Lines` and `Import`
/// read the input. Where a feed or an import is asked for at no moment, it is the clock's. Gives the connection back
/// with the number of lines or rows served, or with the fault at which that ended. `watch` is told how far `Init`,
/// `Check` and `Raise` are.
///
/// However `Raise` ends, a database that stood for an operator at some version stands after a crash for that operator,
/// at that version or at the newest.
pub fn run_words<S: Alter, R: Read, W: Write, P: Watch>(
    alloc: Global,
    task: &FileTask<'_>,
    clock: Option<Moment>,
    conn: Connection<S>,
    reader: &mut R,
    writer: &mut W,
    watch: &mut P,
) -> (Connection<S>, Result<u64, Fault>)
    requires outside { conn.in_transaction ≡ false }
    requires within { IsWithinOnFile task.now }
    // What the task does, by its input and output.
    ensures clean { doubt (state S.Store conn).is_clean ≤ doubt (state S.Store result.0).is_clean }
    ensures done { HasCleanDisk (state S.Store result.0)
        → Does S.Store (R.remaining reader.old) (R.remaining reader.new)
        (W.contents writer.old) (W.contents writer.new) task.now clock conn result.0 result.1 }
    // What a crash may leave, and that a look changes nothing.
    ensures kept { CrashLeaves S.Store conn result.0 (MayStand task.now) }
    ensures raised { IsRaise task.now → CrashLeavesRaised S.Store conn result.0 }
    ensures stays { Looks task.now → LeavesAll S.Store conn result.0 }
{
    match task {
        FileTask::Init => take_up(alloc, "ready\n", conn, writer, watch),
        FileTask::Check => look_over(alloc, "sound\n", conn, writer, watch),
        FileTask::Raise => raise_up(alloc, conn, writer, watch),
        FileTask::Lines => serve(alloc, conn, reader, writer),
        FileTask::Feed { feed, at } => {
            let moment = moment_of(*at, clock);
            publish(alloc, *feed, moment, conn, writer)
        }
        FileTask::Day { table, date, zone } => {
            report_day(alloc, *table, date, zone, conn, writer)
        }
        FileTask::History { after } => report_history(alloc, *after, conn, writer),
        FileTask::Import { name, at } => {
            let moment = moment_of(*at, clock);
            import_from(alloc, name, moment, conn, reader, writer)
        }
    }
}

/// Does the task over a database in memory, which is made for it and let go at the end.
pub fn run_words_in_memory<R: Read, W: Write>(
    alloc: Global,
    task: &FileTask<'_>,
    clock: Option<Moment>,
    reader: &mut R,
    writer: &mut W,
) -> Result<u64, Fault>
    requires within { IsWithinOnFile task.now }
    ensures { DoesInMemory (R.remaining reader.old) (R.remaining reader.new)
        (W.contents writer.old) (W.contents writer.new) task.now clock result }
{
    let conn = Connection::open_in_memory(alloc)?;
    let (_, end) = run_words(alloc, task, clock, conn, reader, writer, &mut NoWatch);
    end
}
