//! The words over the database file at a path: how it is opened, what is done over it, and how it is closed.

ghost use Rattle.std.specs.Prelude.{◌≡◌, true, false, IfSome, IsNone, IfOk};
ghost use Rattle.sqlite.specs.State.{HasCleanDisk};
ghost use Rattle.sqlite.specs.Files.{file_state};
ghost use Rattle.sqlite_wal.specs.Files.{image_at};
ghost use Rattle.bike_operator.specs.Operator.{Operator};
ghost use Rattle.bike_schema.specs.Stands.{AllLeft};
ghost use Rattle.bike_console.specs.Files.{HoldsOperator};
ghost use Rattle.bike_command_line.specs.Program.{IsWithinOnFile};
ghost use Rattle.bike_app.specs.Words.{IsRaise, MayStand};
ghost use Rattle.bike_app.specs.Files.{DoesOverFile, EndsOnFile, IsAlone, IsUntouched, LeavesRaised, settles};

use crate::words::run_words;
use bike_audit::Watch;
use bike_command_line::FileTask;
use bike_console::{Fault, NewLog, Remains, Wanted, open_file, open_to_look, prepare_file, settle};
use bike_fixed::Moment;
use sqlite::{Connection, FileFrom, FileStore, Start};
use std::io::{Read, Write};

/// Does the task over the database file at a path, as `run_words` does over the database that the file's bytes hold.
/// Gives the connection back, none where the file couldn't be opened: then nothing was read, nothing written, and the
/// fault is that of the opening.
///
/// However `Raise` ends, a file that held an operator at some version holds after a crash that operator, at that
/// version or at the newest.
pub fn run_file<F: Start, R: Read, W: Write, P: Watch>(
    rt: &HostRuntime,
    task: &FileTask<'_>,
    clock: Option<Moment>,
    path: &str,
    start: F,
    reader: &mut R,
    writer: &mut W,
    watch: &mut P,
) -> (
    Option<Connection<FileStore<FileFrom<F>>>>,
    Result<u64, Fault>,
)
    requires within { IsWithinOnFile task.now }
    ensures done { IfSome result.0 (λ last. HasCleanDisk (file_state last)
        → DoesOverFile (image_at F.Start) (R.remaining reader.old) (R.remaining reader.new)
        (W.contents writer.old) (W.contents writer.new) task.now clock last result.1) }
    ensures kept { IfSome result.0 (λ last. HasCleanDisk (file_state last)
        → (s : Operator) → HoldsOperator (image_at F.Start) s → AllLeft (file_state last) (MayStand task.now s)) }
    ensures raised { IfSome result.0 (λ last. IsRaise task.now → LeavesRaised (image_at F.Start) last) }
    ensures unopened { IsNone result.0 → IsUntouched (image_at F.Start) result.0
        (R.remaining reader.old) (R.remaining reader.new) (W.contents writer.old) (W.contents writer.new) result.1 }
{
    match open_file(rt, path, start) {
        Ok(conn) => {
            let (conn, end) = run_words(rt.alloc(), task, clock, conn, reader, writer, watch);
            (Some(conn), end)
        }
        Err(fault) => (None, Err(fault)),
    }
}

/// What the task wants of the path.
fn wanted_of(task: &FileTask<'_>) -> Wanted {
    match task {
        FileTask::Init | FileTask::Lines | FileTask::Import { .. } => Wanted::AnyFile,
        FileTask::Check | FileTask::Feed { .. } | FileTask::Day { .. } | FileTask::History { .. } =>
            Wanted::FileThere,
        FileTask::Raise => Wanted::FileInUse,
    }
}

/// Whether the log is brought into the file at the end of the task, so that the file is the whole database by itself.
fn settles(task: &FileTask<'_>) -> bool
    ensures { result ≡ settles task.now }
{
    match task {
        FileTask::Init | FileTask::Raise | FileTask::Lines | FileTask::Import { .. } => true,
        FileTask::Check | FileTask::Feed { .. } | FileTask::Day { .. } | FileTask::History { .. } =>
            false,
    }
}

/// Does a task that only looks over the database file at a path. `None` is what is left of it.
fn look_at_file<F: Start, R: Read, W: Write, P: Watch>(
    rt: &HostRuntime,
    task: &FileTask<'_>,
    clock: Option<Moment>,
    path: &str,
    start: F,
    reader: &mut R,
    writer: &mut W,
    watch: &mut P,
) -> (Option<Remains<FileFrom<F>>>, Result<u64, Fault>)
    requires within { IsWithinOnFile task.now }
    requires looks { settles task.now ≡ false }
    ensures none { IsNone result.0 }
    ensures done { EndsOnFile F.Start (R.remaining reader.old) (R.remaining reader.new)
        (W.contents writer.old) (W.contents writer.new) task.now clock result.0 result.1 }
{
    match open_to_look(rt, path, start) {
        Ok((conn, kept)) => {
            let (conn, end) = run_words(rt.alloc(), task, clock, conn, reader, writer, watch);
            drop(conn);
            drop(kept);
            (None, end)
        }
        Err(fault) => (None, Err(fault)),
    }
}

/// Does the task over the database file at a path, as `run_file` does, from the path on to the closing. Tasks that only
/// look, and `Raise`, make no file: where there is none that is `StoreFailed`, and for `Raise` a file of at most one
/// byte too. Tasks that only look change no byte of the file and of its log. A log that may hold commits is
/// `StoreFailed` for all tasks, and stays, where it has no file, or one of at most one byte, or its header is damaged.
/// Tasks that may change the database bring the log into the file at their end, so that after a number the file is the
/// whole database by itself; where that fails, they end with `StoreFailed`, and the file and its log are the database
/// together. Tasks that only look, and a file that is refused, leave no log where there was none. Gives back what is
/// left of the connection, none where no file was opened or it was only looked at, and how the task ended.
pub fn run_on_file<F: Start, R: Read, W: Write, P: Watch>(
    rt: &HostRuntime,
    task: &FileTask<'_>,
    clock: Option<Moment>,
    path: &str,
    start: F,
    reader: &mut R,
    writer: &mut W,
    watch: &mut P,
) -> (Option<Remains<FileFrom<F>>>, Result<u64, Fault>)
    requires within { IsWithinOnFile task.now }
    ensures done { EndsOnFile F.Start (R.remaining reader.old) (R.remaining reader.new)
        (W.contents writer.old) (W.contents writer.new) task.now clock result.0 result.1 }
    ensures alone { IfOk result.1 (λ count. settles task.now ≡ true → IsAlone result.0) }
    ensures looks { settles task.now ≡ false → IsNone result.0 }
{
    if let Err(fault) = prepare_file(rt, path, wanted_of(task)) {
        return (None, Err(fault));
    }
    if !settles(task) {
        return look_at_file(rt, task, clock, path, start, reader, writer, watch);
    }
    let made = NewLog::beside(rt, path);
    let (conn, end) = run_file(rt, task, clock, path, start, reader, writer, watch);
    match conn {
        None => (None, end),
        Some(conn) => {
            let (remains, end) = settle(conn, end);
            made.remove_where_open(rt, &remains);
            (Some(remains), end)
        }
    }
}
