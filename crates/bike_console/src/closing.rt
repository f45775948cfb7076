//! The end of a connection to a database file.

ghost use Rattle.std.specs.Prelude.{◌≡◌};
ghost use Rattle.bike_console.specs.Closing.{Closes, is_log_kept};

use crate::end::Fault;
use sqlite::{Connection, FileStore, Files};
use sqlite_disk::Disk;

/// What is left of a connection to a database file.
#[derive(Drop)]
pub enum Remains<D: Disk> {
    /// The connection: the file and its log are the database together.
    Open(Connection<FileStore<D>>),
    /// The files: the database file is the whole database by itself.
    Settled(Files<D>),
    /// The store, whose log couldn't be brought into the file: both are the database together.
    Unsettled(FileStore<D>),
}

/// Whether the log stays beside the file after a task that ended so: where the store failed or memory was refused, and
/// where the database isn't one that is served, which stays as it is.
fn is_log_kept(end: &Result<u64, Fault>) -> bool
    ensures { result ≡ is_log_kept end.now }
{
    match end {
        Ok(_) => false,
        Err(fault) => match fault {
            Fault::StoreFailed | Fault::OutOfMemory => true,
            Fault::Foreign | Fault::Unsound(_) | Fault::Older(_) | Fault::Newer(_) => true,
            Fault::SystemMissing | Fault::RowRefused(_, _) | Fault::RowUnreadable(_) => false,
            Fault::BadHeader | Fault::BadDate | Fault::BadZone | Fault::DayOutOfRange => false,
            Fault::Begins(_) => false,
            Fault::ReadFailed | Fault::TooManyReads | Fault::WriteFailed => false,
            Fault::NoClock | Fault::BindFailed | Fault::AcceptFailed => false,
        },
    }
}

/// Closes the connection after a task that ended so: the log is brought into the database file, which is then the whole
/// database by itself. Gives back what is left, and how the task ended: `StoreFailed` where that failed. The log stays
/// then, and so it does after a task that failed for the store or memory, or whose database isn't one that is served.
pub fn settle<D: Disk + Drop>(
    conn: Connection<FileStore<D>>,
    end: Result<u64, Fault>,
) -> (Remains<D>, Result<u64, Fault>)
    ensures { Closes conn end result.0 result.1 }
{
    if is_log_kept(&end) {
        return (Remains::Open(conn), end);
    }
    match conn.close_files() {
        Ok(files) => (Remains::Settled(files), end),
        Err((_, store)) => (Remains::Unsettled(store), Err(Fault::StoreFailed)),
    }
}
