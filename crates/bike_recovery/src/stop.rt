//! A list of requests is served over files, the process stops, and another one opens what it left.

ghost use Rattle.std.specs.Prelude.{◌≡◌, ◌≤◌, IfOk, IfErr, IsNone, length};
ghost use Rattle.sqlite.specs.State.{HasCleanDisk};
ghost use Rattle.sqlite.specs.Files.{file_state, over_files};
ghost use Rattle.sqlite_trees.specs.View.{doubt, IsClean};
ghost use Rattle.sqlite_wal.specs.Files.{image_at};
ghost use Rattle.sqlite_store.specs.FileStore as store;
ghost use Rattle.bike_operator.specs.Operator.{Operator};
ghost use Rattle.bike_desk.specs.Desk.{desk_state, IsAt};
ghost use Rattle.bike_desk.specs.Runs.{IsAfterFront};
ghost use Rattle.bike_schema.specs.Stands.{AllLeft};
ghost use Rattle.bike_recovery.specs.Recovery.{AreReplies, IfReadAgain, TellsStopped};
ghost use Rattle.bike_recovery.specs.Files.{MayHold, IsAtSomeFront, IsOnlyStorage, ReadsSomeFront};

use crate::crash::Acknowledged;
use crate::files::stop_and_open;
use crate::reading::{Reading, read_again};
use bike_audit::{AdoptFault, adopt};
use bike_commands::Request;
use bike_desk::Desk;
use bike_fields::BicycleNumber;
use bike_fixed::Moment;
use sqlite::{Error, FileFrom, FileStore, Leftover, Start};
use sqlite_disk::Disk;
use std::io::Write;

/// Why files weren't taken into service.
#[derive(Drop)]
pub enum LostFiles<D: Disk> {
    /// They weren't opened, for this error; what is left of them, once the system opened them.
    NotOpened(Error, Option<Leftover<D>>),
    /// What they hold is refused.
    Refused(AdoptFault<FileStore<D>>),
}

/// A stop of the process that holds the desk, and a desk over the files at a path. Gives the store back as it is at the
/// stop.
fn resume_files<D: Disk + Drop, F: Start>(
    rt: &HostRuntime,
    desk: Desk<FileStore<D>>,
    path: &str,
    start: F,
) -> (
    FileStore<D>,
    Result<Desk<FileStore<FileFrom<F>>>, LostFiles<FileFrom<F>>>,
)
    ensures clean { doubt (desk_state over_files desk).is_clean ≤ doubt (store.view result.0).is_clean }
    ensures front { MayHold result.0 (image_at F.Start) → (s : Operator) (calls : _) (k : _)
        → AllLeft (desk_state over_files desk) (IsAfterFront s calls k)
        → IfOk result.1 (λ again. HasCleanDisk (desk_state over_files again)
        → IsAtSomeFront over_files again s calls k) }
    ensures refused { MayHold result.0 (image_at F.Start) → (s : Operator) (calls : _) (k : _)
        → AllLeft (desk_state over_files desk) (IsAfterFront s calls k) → IfErr result.1 IsOnlyStorage }
{
    let (stopped, opened) = stop_and_open(rt, desk.close(), path, start);
    let conn = match opened {
        Ok(conn) => conn,
        Err((error, left)) => return (stopped, Err(LostFiles::NotOpened(error, left))),
    };
    match adopt(rt.alloc(), conn) {
        Ok(again) => (stopped, Ok(again)),
        Err(fault) => (stopped, Err(LostFiles::Refused(fault))),
    }
}

/// Serves a list of requests over files and stops; then opens the files at a path, takes them into service and reads
/// them, as `run_adopt_and_read` does. `F` stands for the bytes that those files hold: the promise is for all bytes
/// that the stop may have left in the first ones, so it is of two processes that have nothing but the files in common.
///
/// Files that the stop may have left are refused for memory or storage alone: for want of memory, where the system
/// refuses to open them, for a fault of the disk, or where they are too long.
pub fn run_stop_and_read<D: Disk + Drop, F: Start, W: Write>(
    rt: &HostRuntime,
    mut desk: Desk<FileStore<D>>,
    calls: &[(Moment, Request)],
    path: &str,
    start: F,
    bike: BicycleNumber,
    moment: Moment,
    out: &mut W,
) -> (
    Acknowledged,
    FileStore<D>,
    Result<(Desk<FileStore<FileFrom<F>>>, Reading), LostFiles<FileFrom<F>>>,
)
    ensures headline { (s : Operator) → IsAt over_files desk s → MayHold result.1 (image_at F.Start)
        → IfReadAgain over_files result.2 (λ again reading. ReadsSomeFront over_files again s calls.now
        (length result.0.replies.items) bike moment (W.contents out.old) (W.contents out.new) reading) }
    ensures replies { (s : Operator) → IsAt over_files desk s → IsClean (store.view result.1)
        → AreReplies s calls.now result.0.replies.items }
    ensures refused { (s : Operator) → IsAt over_files desk s → MayHold result.1 (image_at F.Start)
        → IfErr result.2 IsOnlyStorage }
    ensures whole { IsNone result.0.end → length result.0.replies.items ≡ length calls.now }
    ensures stopped { TellsStopped desk.is_stopped result.0.end }
{
    let run = desk.run_list(rt.alloc(), calls);
    let told = Acknowledged {
        replies: run.replies,
        end: run.end,
    };
    let (stopped, resumed) = resume_files(rt, desk, path, start);
    match resumed {
        Ok(mut again) => {
            let reading = read_again(rt.alloc(), &mut again, bike, moment, out);
            (told, stopped, Ok((again, reading)))
        }
        Err(lost) => (told, stopped, Err(lost)),
    }
}
