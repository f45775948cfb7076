//! Logs that aren't opened, since the engine would begin anew over what they may hold.

ghost use Rattle.std.specs.Prelude.{◌≡◌, ◌≤◌, ◌+◌, ◌↔◌, IfOk, IfErr, IsTrue};
ghost use Rattle.sqlite.specs.Files.{faults_of, image_of};
ghost use Rattle.sqlite_disk.specs.Disk.{MoreFaults};
ghost use Rattle.sqlite_wal.specs.Format.{be32, IsSigned};
ghost use Rattle.sqlite_wal.specs.Reads.{AreClean, IsClean, OnlyReads};
ghost use Rattle.bike_console.specs.Files.{IsBegunAnew, IsBroken, IsDamagedLog, IsLoneLog, IsLostLog};

use crate::end::Fault;
use sqlite::Files;
use sqlite_disk::Disk;
use sqlite_wal::checksum_of;

/// How long a log is at least that holds a commit, in bytes: its header, and a frame of the smallest page
/// (<https://www.sqlite.org/fileformat2.html>, section 4.1).
pub const LEAST_LOG: usize = 32 + 24 + 512;

/// Whether a log of so many bytes may hold a commit.
pub(crate) fn may_hold_commit(length: usize) -> bool
    ensures long { IsTrue result ↔ LEAST_LOG ≤ length }
    ensures least { LEAST_LOG ≡ 568 }
{
    length >= LEAST_LOG
}

/// Four bytes of a log's header as a number, the highest first.
fn word_at(head: &[u8; 32], at: usize) -> u32
    requires { at + 4 ≤ 32 }
    ensures { result ≡ be32 head.now at }
{
    head[at] as u32 * 0x100_0000
        + head[at + 1] as u32 * 0x1_0000
        + head[at + 2] as u32 * 0x100
        + head[at + 3] as u32
}

/// Whether a log's header begins with the file's magic number and ends with the checksum of what stands between
/// (<https://www.sqlite.org/fileformat2.html>, section 4.1).
fn is_signed(head: &[u8; 32]) -> bool
    ensures { IsTrue result ↔ IsSigned head.now }
{
    if head[0] != 0x37 || head[1] != 0x7f || head[2] != 0x06 {
        return false;
    }
    if head[3] != 0x82 && head[3] != 0x83 {
        return false;
    }
    let sum = checksum_of(head[3] == 0x83, (0, 0), &head[..24]);
    sum.0 == word_at(head, 24) && sum.1 == word_at(head, 28)
}

/// Whether the engine had begun to write a log's header anew: it puts a 0 in the first byte's place before, and that
/// byte back last. The bytes of the magic number behind it are the same in the old header and in the new one.
fn is_begun_anew(head: &[u8; 32]) -> bool
    ensures { IsTrue result ↔ IsBegunAnew head.now }
{
    head[0] == 0 && head[1] == 0x7f && head[2] == 0x06 && head[3] / 2 == 0x82 / 2
}

/// Whether a log's header is damaged.
fn is_broken(head: &[u8; 32]) -> bool
    ensures { IsTrue result ↔ IsBroken head.now }
{
    !is_begun_anew(head) && !is_signed(head)
}

/// Whether the database file has at most one byte beside a log that may hold commits. Nothing tells then what the log
/// goes on from.
fn is_lone<D: Disk>(files: &mut Files<D>) -> Result<bool, Fault>
    requires log { IsTrue (D.Disk.is_usable files.old.log) }
    requires db { IsTrue (D.Disk.is_usable files.old.db) }
    // The verdict, or the fault that it had.
    ensures lone { IfOk result (λ lone. AreClean D.Disk files.new.log files.new.db
        → IsTrue lone ↔ IsLoneLog (image_of D.Disk files.old)) }
    ensures failed { IfErr result (λ told.
        (told ≡ Fault.StoreFailed) × MoreFaults (faults_of D.Disk files.old) (faults_of D.Disk files.new)) }
    // The files are only read.
    ensures counts { faults_of D.Disk files.old ≤ faults_of D.Disk files.new }
    ensures log { OnlyReads D.Disk files.old.log files.new.log }
    ensures db { OnlyReads D.Disk files.old.db files.new.db }
{
    let Ok(length) = files.db.len() else {
        return Err(Fault::StoreFailed);
    };
    if length > 1 {
        return Ok(false);
    }
    match files.log.len() {
        Ok(length) => Ok(length >= LEAST_LOG),
        Err(_) => Err(Fault::StoreFailed),
    }
}

/// Whether the log may hold commits and its header is damaged.
fn is_damaged<D: Disk>(log: &mut D) -> Result<bool, Fault>
    requires { IsTrue (D.Disk.is_usable log.old) }
    ensures damaged { IfOk result (λ damaged. IsClean D.Disk log.new
        → IsTrue damaged ↔ IsDamagedLog (D.Disk.seen log.old)) }
    ensures failed { IfErr result (λ told.
        (told ≡ Fault.StoreFailed)
        × (IsClean D.Disk log.new → MoreFaults (D.Disk.faults log.old) (D.Disk.faults log.new))) }
    ensures counts { D.Disk.faults log.old ≤ D.Disk.faults log.new }
    ensures same { OnlyReads D.Disk log.old log.new }
{
    let Ok(length) = log.len() else {
        return Err(Fault::StoreFailed);
    };
    if length < LEAST_LOG {
        return Ok(false);
    }
    let mut head = [0; 32];
    match log.read_at(0, &mut head) {
        Ok(()) => Ok(is_broken(&head)),
        Err(_) => Err(Fault::StoreFailed),
    }
}

/// Whether the engine, as SQLite does, would begin anew over a log that may hold commits.
pub(crate) fn would_lose_log<D: Disk>(files: &mut Files<D>) -> Result<bool, Fault>
    requires log { IsTrue (D.Disk.is_usable files.old.log) }
    requires db { IsTrue (D.Disk.is_usable files.old.db) }
    // The verdict, or the fault that it had.
    ensures lost { IfOk result (λ lost. AreClean D.Disk files.new.log files.new.db
        → IsTrue lost ↔ IsLostLog (image_of D.Disk files.old)) }
    ensures failed { IfErr result (λ told. (told ≡ Fault.StoreFailed)
        × (AreClean D.Disk files.new.log files.new.db
        → MoreFaults (faults_of D.Disk files.old) (faults_of D.Disk files.new))) }
    // The files are only read.
    ensures counts { faults_of D.Disk files.old ≤ faults_of D.Disk files.new }
    ensures log { OnlyReads D.Disk files.old.log files.new.log }
    ensures db { OnlyReads D.Disk files.old.db files.new.db }
{
    match is_lone(files) {
        Ok(false) => is_damaged(&mut files.log),
        Ok(true) => Ok(true),
        Err(fault) => Err(fault),
    }
}
