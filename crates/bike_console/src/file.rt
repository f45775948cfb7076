//! The database file at a path.

ghost use Rattle.std.specs.Prelude.{◌≡◌, true, false, IfOk, IfErr, IsTrue};
ghost use Rattle.sqlite.specs.State.{HasCleanDisk};
ghost use Rattle.sqlite.specs.Held.{state};
ghost use Rattle.sqlite.specs.Start.{FindsIn};
ghost use Rattle.sqlite.specs.Files.{file_state, image_of, IsOpened};
ghost use Rattle.sqlite_std_file.specs.File.{file_is_usable, IsFresh};
ghost use Rattle.sqlite_wal.specs.Files.{image_at};
ghost use Rattle.bike_recognition.specs.Added.{has_added_unique};
ghost use Rattle.bike_console.specs.declared.end.Fault.TheVariants.{Foreign};
ghost use Rattle.bike_console.specs.Files.{IsDamagedLog, IsLoneLog, IsLostLog, IsOpeningFault, TellsBarred};
ghost use Rattle.bike_console.specs.Files.{TellsUnopened, TellsWhy};

use crate::end::Fault;
use crate::options::find_options;
use crate::place::{NewLog, is_plain};
use bike_recognition::has_added_unique;
use sqlite::{Alter, Connection, FileFrom, FileStore, Files, Start};
use sqlite_disk::Disk;
use sqlite_std_file::OpenError;
use std::hash::{BuildHasher, RandomState};
use std::io::ErrorKind;

/// The log and the database file at a path, which are made where they are missing.
pub(crate) fn open_pair<F: Start>(
    rt: &HostRuntime,
    path: &str,
    start: F,
) -> Result<Files<FileFrom<F>>, Fault>
    ensures usable { IfOk result (λ files.
        IsTrue (file_is_usable F.Start files.log) × IsTrue (file_is_usable F.Start files.db)) }
    ensures fresh { IfOk result (λ files. IsFresh true files.log × IsFresh false files.db) }
    ensures barred { IfErr result TellsBarred }
{
    if !is_plain(path) {
        return Err(Fault::StoreFailed);
    }
    match sqlite_std_file::open(rt, path, start) {
        Ok(files) => Ok(files),
        Err(OpenError::OutOfMemory) => Err(Fault::OutOfMemory),
        Err(OpenError::Io(error)) if error.kind() == ErrorKind::OutOfMemory => {
            Err(Fault::OutOfMemory)
        }
        Err(_) => Err(Fault::StoreFailed),
    }
}

/// A number for the engine's own hashing.
pub(crate) fn draw_seed(rt: &HostRuntime) -> Option<u64> {
    match RandomState::new(rt) {
        Ok(state) => Some(state.hash_one(&0u8)),
        Err(_) => None,
    }
}

/// Opens the database that these files hold, or makes one. Where they are refused, the log that wasn't there before is
/// taken away.
pub(crate) fn open_over<D: Disk + Drop>(
    rt: &HostRuntime,
    seed: u64,
    mut files: Files<D>,
    made: NewLog,
) -> Result<Connection<FileStore<D>>, Fault>
    requires log { IsTrue (D.Disk.is_usable files.log) }
    requires db { IsTrue (D.Disk.is_usable files.db) }
    // What is opened is what the files hold, outside a transaction.
    ensures opened { IfOk result (λ conn. HasCleanDisk (file_state conn) → IsOpened conn) }
    ensures found { IfOk result (λ conn.
        HasCleanDisk (file_state conn) → FindsIn (image_of D.Disk files) (file_state conn)) }
    // Nothing is opened over a log that would be lost.
    ensures lost { IfOk result (λ conn. HasCleanDisk (file_state conn) → IsLostLog (image_of D.Disk files) → ⊥) }
    ensures autocommit { IfOk result (λ conn. conn.in_transaction ≡ false) }
    // Why not.
    ensures why { TellsUnopened (image_of D.Disk files) result }
{
    let options = match find_options(&mut files, seed) {
        Ok(Some(options)) => options,
        Ok(None) => return Err(Fault::StoreFailed),
        Err(fault) => return Err(fault),
    };
    match Connection::open_files_with(rt.alloc(), files, options, false) {
        Ok(conn) => Ok(conn),
        Err((error, left)) => {
            // The files are still locked, so that nobody else has opened the log.
            made.remove(rt);
            drop(left);
            Err(Fault::from(error))
        }
    }
}

/// Opens the database that the files at a path hold, or makes one. A file that is refused gets no log beside it.
fn open_database<F: Start>(
    rt: &HostRuntime,
    path: &str,
    start: F,
) -> Result<Connection<FileStore<FileFrom<F>>>, Fault>
    ensures opened { IfOk result (λ conn. HasCleanDisk (file_state conn) → IsOpened conn) }
    ensures found { IfOk result (λ conn.
        HasCleanDisk (file_state conn) → FindsIn (image_at F.Start) (file_state conn)) }
    ensures lost { IfOk result (λ conn. HasCleanDisk (file_state conn) → IsLostLog (image_at F.Start) → ⊥) }
    ensures autocommit { IfOk result (λ conn. conn.in_transaction ≡ false) }
    ensures why { TellsUnopened (image_at F.Start) result }
{
    let Some(seed) = draw_seed(rt) else {
        return Err(Fault::StoreFailed);
    };
    let made = NewLog::beside_database(rt, path);
    let files = open_pair(rt, path, start)?;
    open_over(rt, seed, files, made)
}

/// The connection, unless somebody added a UNIQUE index to a table of the product's: that is `Foreign`. A good request
/// could fail on such an index, and each time that it is sent.
pub(crate) fn refuse_added<S: Alter + Drop>(
    rt: &HostRuntime,
    conn: Connection<S>,
    made: NewLog,
) -> Result<Connection<S>, Fault>
    ensures same { IfOk result (λ it. it ≡ conn) }
    ensures own { IfOk result (λ it. has_added_unique (state S.Store it).now.schema ≡ false) }
    ensures added { IfErr result (λ fault.
        (fault ≡ Foreign) × (has_added_unique (state S.Store conn).now.schema ≡ true)) }
{
    if has_added_unique(conn.schema()) {
        made.remove(rt);
        return Err(Fault::Foreign);
    }
    Ok(conn)
}

/// Opens the database file at a path, or makes it. `F` stands for the bytes that it and its log hold: what is promised
/// is promised whatever these are. `OutOfMemory` where memory is refused. `Foreign` where somebody added a UNIQUE index
/// to a table of the product's. Else `StoreFailed`: the file can't be opened, another program holds it, the disk
/// failed, what it holds is no database, or its log may hold commits and the engine would begin anew over it, since the
/// file is empty or the log's header is damaged. Such a log stays as it is. Where nothing else wrote to a file that
/// holds a database, with no such index, it is refused for memory, for the disk or for another program alone. A file
/// that is refused gets no log beside it.
pub fn open_file<F: Start>(
    rt: &HostRuntime,
    path: &str,
    start: F,
) -> Result<Connection<FileStore<FileFrom<F>>>, Fault>
    // What is opened is what the files hold, outside a transaction.
    ensures opened { IfOk result (λ conn. HasCleanDisk (file_state conn) → IsOpened conn) }
    ensures found { IfOk result (λ conn.
        HasCleanDisk (file_state conn) → FindsIn (image_at F.Start) (file_state conn)) }
    // Files that would lose something aren't opened.
    ensures lone { IfOk result (λ conn. HasCleanDisk (file_state conn) → IsLoneLog (image_at F.Start) → ⊥) }
    ensures whole { IfOk result (λ conn. HasCleanDisk (file_state conn) → IsDamagedLog (image_at F.Start).log → ⊥) }
    ensures autocommit { IfOk result (λ conn. conn.in_transaction ≡ false) }
    ensures own { IfOk result (λ conn. has_added_unique (file_state conn).now.schema ≡ false) }
    // Why not.
    ensures fault { IfErr result IsOpeningFault }
    ensures why { TellsWhy (image_at F.Start) result }
{
    let made = NewLog::beside(rt, path);
    match open_database(rt, path, start) {
        Ok(conn) => refuse_added(rt, conn, made),
        Err(fault) => Err(fault),
    }
}
