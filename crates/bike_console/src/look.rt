//! A database file that is only looked at.

ghost use Rattle.std.specs.Prelude.{◌≡◌, ◌≤◌, true, false, Err, IfOk, IfErr, IfSome, IsTrue};
ghost use Rattle.sqlite.specs.Files.{faults_of};
ghost use Rattle.sqlite_disk.specs.Disk.{MoreFaults};
ghost use Rattle.sqlite_disk.specs.Memory.{memory_bytes, memory_is_usable};
ghost use Rattle.sqlite_std_file.specs.File.{file_is_usable, IsFresh};
ghost use Rattle.sqlite_wal.specs.Reads.{AreClean, IsClean, OnlyReads};
ghost use Rattle.bike_read_only.specs.Held.{HoldsOnly};
ghost use Rattle.bike_read_only.specs.declared.copy.CopyFault.TheVariants.{Unread};
ghost use Rattle.bike_console.specs.Files.{IsOpeningFault, TellsBarred};
ghost use Rattle.bike_console.specs.Looks.{AreSeen, AreUsable, Sees, shown_by, TellsSeen};

use crate::end::Fault;
use crate::file::{draw_seed, open_over, open_pair, refuse_added};
use crate::found::FoundFile;
use crate::place::NewLog;
use bike_read_only::{CopyFault, ReadOnly, Source, copy_of};
use sqlite::{Connection, FileFrom, FileStore, Files, Start};
use sqlite_disk::{Disk, Memory};

/// How long a database file is at most of which a copy is looked at, in bytes: the engine writes to no longer one as it
/// opens it, but finishes one whose making was stopped within its first page.
const SHORT: usize = 65_536;

/// What shows the bytes of a database's two files where it's only looked at.
pub type SnapshotSource<D, S> = Source<ReadOnly<D, S>, Memory>;

/// The files of a database that is only looked at, of which copies were made. While they are held, no other program
/// opens them.
#[derive(Drop)]
pub struct KeptFiles<D: Disk> {
    /// The log.
    pub log: D,
    /// The database file, where it is short; else the connection reads it itself.
    pub db: Option<D>,
}

/// A connection to a database that is only looked at, through which what is written stands in memory, and the files
/// behind it.
pub type Snapshot<D, S> = (Connection<FileStore<SnapshotSource<D, S>>>, KeptFiles<D>);

/// Copies of the log, and of the database file where it is short.
fn copies_of<D: Disk>(
    rt: &HostRuntime,
    files: &mut Files<D>,
) -> Result<(Memory, Option<Memory>), CopyFault>
    requires log { IsTrue (D.Disk.is_usable files.old.log) }
    requires db { IsTrue (D.Disk.is_usable files.old.db) }
    // Each copy has what the file has.
    ensures log { IfOk result (λ copies. IsTrue (memory_is_usable copies.0)
        × (IsClean D.Disk files.new.log → memory_bytes copies.0 ≡ D.Disk.seen files.old.log)) }
    ensures db { IfOk result (λ copies. IfSome copies.1 (λ copy. IsTrue (memory_is_usable copy)
        × (IsClean D.Disk files.new.db → memory_bytes copy ≡ D.Disk.seen files.old.db))) }
    // A copy fails by a fault of the disk.
    ensures failed { result ≡ Err Unread → AreClean D.Disk files.new.log files.new.db
        → MoreFaults (faults_of D.Disk files.old) (faults_of D.Disk files.new) }
    // The files are only read.
    ensures log_read { OnlyReads D.Disk files.old.log files.new.log }
    ensures db_read { OnlyReads D.Disk files.old.db files.new.db }
{
    let log = copy_of(rt.alloc(), &mut files.log)?;
    let Ok(length) = files.db.len() else {
        return Err(CopyFault::Unread);
    };
    if length > SHORT {
        return Ok((log, None));
    }
    let db = copy_of(rt.alloc(), &mut files.db)?;
    Ok((log, Some(db)))
}

/// The files, and what stands in their place.
fn stand_in<D: Disk, S: Start>(
    files: Files<D>,
    log: Memory,
    db: Option<Memory>,
) -> (KeptFiles<D>, Files<SnapshotSource<D, S>>)
    // The files hold what they held at the start, and can be used.
    requires held { HoldsOnly D.Disk S.Start.log files.log × HoldsOnly D.Disk S.Start.db files.db }
    requires usable { IsTrue (memory_is_usable log) × IsTrue (D.Disk.is_usable files.db) }
    // A copy has the bytes of its file, if the disk is clean.
    requires log { IsClean D.Disk files.log → memory_bytes log ≡ S.Start.log }
    requires db { IfSome db (λ copy. IsTrue (memory_is_usable copy)
        × (IsClean D.Disk files.db → memory_bytes copy ≡ S.Start.db)) }
    // What stands in their place shows those bytes, and can be used.
    ensures seen { AreSeen D.Disk S.Start result.0 (shown_by D.Disk S.Start result.1) }
    ensures usable { AreUsable D.Disk S.Start result.1 }
{
    let Files {
        log: log_file,
        db: db_file,
    } = files;
    match db {
        Some(copy) => {
            let kept = KeptFiles {
                log: log_file,
                db: Some(db_file),
            };
            let shown = Files {
                log: Source::Copy(log),
                db: Source::Copy(copy),
            };
            (kept, shown)
        }
        None => {
            let kept = KeptFiles {
                log: log_file,
                db: None,
            };
            let shown = Files {
                log: Source::Copy(log),
                db: Source::File(ReadOnly::new(db_file)),
            };
            (kept, shown)
        }
    }
}

/// Looks over these files: a connection over what stands in their place.
fn look_over<D: Disk + Drop, S: Start>(
    rt: &HostRuntime,
    seed: u64,
    files: Files<D>,
    log: Memory,
    db: Option<Memory>,
) -> Result<Snapshot<D, S>, Fault>
    requires held { HoldsOnly D.Disk S.Start.log files.log × HoldsOnly D.Disk S.Start.db files.db }
    requires usable { IsTrue (memory_is_usable log) × IsTrue (D.Disk.is_usable files.db) }
    requires log { IsClean D.Disk files.log → memory_bytes log ≡ S.Start.log }
    requires db { IfSome db (λ copy. IsTrue (memory_is_usable copy)
        × (IsClean D.Disk files.db → memory_bytes copy ≡ S.Start.db)) }
    ensures { TellsSeen D.Disk S.Start result }
{
    let (kept, shown) = stand_in(files, log, db);
    match open_over(rt, seed, shown, NewLog::none()) {
        Ok(conn) => match refuse_added(rt, conn, NewLog::none()) {
            Ok(conn) => Ok((conn, kept)),
            Err(fault) => Err(fault),
        },
        Err(fault) => Err(fault),
    }
}

/// The log and the database file at a path where there is a file. The engine makes one that is missing: so it is looked
/// for right before, and what was opened has to be what was found. A log that wasn't there is taken away again.
fn open_there<F: Start>(rt: &HostRuntime, path: &str, start: F) -> Result<Files<FileFrom<F>>, Fault>
    ensures usable { IfOk result (λ files.
        IsTrue (file_is_usable F.Start files.log) × IsTrue (file_is_usable F.Start files.db)) }
    ensures fresh { IfOk result (λ files. IsFresh true files.log × IsFresh false files.db) }
    ensures barred { IfErr result TellsBarred }
{
    let made = NewLog::beside(rt, path);
    let Some(found) = FoundFile::at(rt, path) else {
        return Err(Fault::StoreFailed);
    };
    let files = open_pair(rt, path, start)?;
    // The files are locked, so that nobody else has opened the log.
    made.remove(rt);
    if !found.is_at(rt, path) {
        return Err(Fault::StoreFailed);
    }
    Ok(files)
}

/// Opens the database file at a path to look at it, as `open_file` does to serve it, with the same faults: no byte of
/// the file and of its log is changed. The log is copied into memory, and so is a file of at most 65,536 bytes; of a
/// longer one each write is refused. A log that wasn't there isn't left.
pub fn open_to_look<F: Start>(
    rt: &HostRuntime,
    path: &str,
    start: F,
) -> Result<Snapshot<FileFrom<F>, F>, Fault>
    ensures fault { IfErr result IsOpeningFault }
    ensures seen { TellsSeen _ F.Start result }
{
    let Some(seed) = draw_seed(rt) else {
        return Err(Fault::StoreFailed);
    };
    let mut files = open_there(rt, path, start)?;
    let copies = copies_of(rt, &mut files);
    match copies {
        Ok((log, db)) => look_over(rt, seed, files, log, db),
        Err(CopyFault::OutOfMemory) => Err(Fault::OutOfMemory),
        Err(CopyFault::Unread) => Err(Fault::StoreFailed),
    }
}
