//! How much of a database the engine keeps in memory, and how long its log grows: by bytes, whatever a page has.

ghost use Rattle.std.specs.Prelude.{◌≡◌, ◌≤◌, ◌/◌, ◌↔◌, IfOk, IfErr, IsNone, IsTrue};
ghost use Rattle.sqlite.specs.Files.{faults_of, image_of};
ghost use Rattle.sqlite_disk.specs.Disk.{MoreFaults};
ghost use Rattle.sqlite_wal.specs.Reads.{AreClean, IsClean, OnlyReads};
ghost use Rattle.bike_console.specs.Files.{IsLostLog};
ghost use Rattle.bike_console.specs.Pages.{page_length_of};

use crate::end::Fault;
use crate::log::would_lose_log;
use sqlite::{Files, Options};
use sqlite_disk::Disk;

/// How many bytes of pages that were read are kept in memory: 4 MB.
pub(crate) const CACHE: usize = 4_096_000;

/// How many bytes of pages the log has before it is copied into the database file: 8 MB. A longer one is copied more
/// seldom, and takes longer to read where the program opens it after a stop.
pub(crate) const LOG: usize = 8_192_000;

/// How long a page of a database is that the engine makes.
const ENGINE_PAGE: usize = 4_096;

/// How long a file is at least that has a header.
const HEADER: usize = 100;

/// The length of a page, as the header has it in its bytes 16 and 17
/// (<https://www.sqlite.org/fileformat2.html>, section 1.3.2). One that no database has counts as the engine's own.
fn page_length(high: u8, low: u8) -> usize
    ensures value { result ≡ page_length_of high low }
    ensures some { 512 ≤ result }
{
    match usize::from(high) * 256 + usize::from(low) {
        1 => 65_536,
        length if length >= 512 => length,
        _ => ENGINE_PAGE,
    }
}

/// The engine's options for pages of this length.
fn options_for(seed: u64, page: usize) -> Options
    requires { 512 ≤ page }
    ensures memory { (result.cache_pages ≡ CACHE / page) × (result.spill_pages ≡ CACHE / page) }
    ensures log { result.checkpoint_frames ≡ LOG / page }
    ensures seed { result.seed ≡ seed }
{
    Options {
        cache_pages: CACHE / page,
        spill_pages: CACHE / page,
        checkpoint_frames: LOG / page,
        seed,
    }
}

/// How long a page of a database file is. The file is only read.
fn find_page_length<D: Disk>(db: &mut D) -> Result<usize, Fault>
    requires { IsTrue (D.Disk.is_usable db.old) }
    ensures some { IfOk result (λ page. 512 ≤ page) }
    ensures failed { IfErr result (λ told. (told ≡ Fault.StoreFailed)
        × (IsClean D.Disk db.new → MoreFaults (D.Disk.faults db.old) (D.Disk.faults db.new))) }
    ensures counts { D.Disk.faults db.old ≤ D.Disk.faults db.new }
    ensures same { OnlyReads D.Disk db.old db.new }
{
    let Ok(length) = db.len() else {
        return Err(Fault::StoreFailed);
    };
    if length < HEADER {
        return Ok(ENGINE_PAGE);
    }
    let mut head = [0; 18];
    match db.read_at(0, &mut head) {
        Ok(()) => Ok(page_length(head[16], head[17])),
        Err(_) => Err(Fault::StoreFailed),
    }
}

/// The engine's options for the database that these files hold; none where it would begin anew over a log that may
/// hold commits.
pub(crate) fn find_options<D: Disk>(
    files: &mut Files<D>,
    seed: u64,
) -> Result<Option<Options>, Fault>
    requires log { IsTrue (D.Disk.is_usable files.old.log) }
    requires db { IsTrue (D.Disk.is_usable files.old.db) }
    // The verdict, or the fault that it had.
    ensures lost { IfOk result (λ options. AreClean D.Disk files.new.log files.new.db
        → IsNone options ↔ IsLostLog (image_of D.Disk files.old)) }
    ensures failed { IfErr result (λ told. (told ≡ Fault.StoreFailed)
        × (AreClean D.Disk files.new.log files.new.db
        → MoreFaults (faults_of D.Disk files.old) (faults_of D.Disk files.new))) }
    // The files are only read.
    ensures counts { faults_of D.Disk files.old ≤ faults_of D.Disk files.new }
    ensures log { OnlyReads D.Disk files.old.log files.new.log }
    ensures db { OnlyReads D.Disk files.old.db files.new.db }
{
    match would_lose_log(files) {
        Ok(false) => {}
        Ok(true) => return Ok(None),
        Err(fault) => return Err(fault),
    }
    match find_page_length(&mut files.db) {
        Ok(page) => Ok(Some(options_for(seed, page))),
        Err(fault) => Err(fault),
    }
}
