//! Serving the database file at a path.

ghost use Rattle.std.specs.Prelude.{IfSome, IsNone};
ghost use Rattle.sqlite.specs.State.{HasCleanDisk};
ghost use Rattle.sqlite.specs.Files.{file_state};
ghost use Rattle.sqlite_wal.specs.Files.{image_at};
ghost use Rattle.bike_operator.specs.Operator.{Operator};
ghost use Rattle.bike_schema.specs.Stands.{AllLeft};
ghost use Rattle.bike_console.specs.Files.{HoldsOperator};
ghost use Rattle.bike_server.specs.Files.{ListensOnFile, IsUnopened};
ghost use Rattle.bike_server.specs.Serving.{StandsAfterRequests};

use crate::server::listen;
use bike_console::{Fault, NewLog, Wanted, open_file, prepare_file};
use sqlite::{Connection, FileFrom, FileStore, Start};
use std::io::Write;

/// Listens over the database file at a path, as `listen` does over a connection to the database that the file's bytes
/// hold; the file is made where there is none. Gives the connection back, none where the file couldn't be opened: then
/// nothing was written or listened to, and the fault is that of the opening. A log that may hold commits stays beside
/// the file.
pub fn listen_on_file<F: Start, W: Write>(
    rt: &HostRuntime,
    port: u16,
    count: Option<u32>,
    path: &str,
    start: F,
    writer: &mut W,
) -> (
    Option<Connection<FileStore<FileFrom<F>>>>,
    Result<u64, Fault>,
)
    ensures ends { IfSome result.0 (λ last.
        ListensOnFile (image_at F.Start) (W.contents writer.old) (W.contents writer.new) last result.1) }
    ensures kept { IfSome result.0 (λ last.
        HasCleanDisk (file_state last) → (s : Operator) → HoldsOperator (image_at F.Start) s
        → AllLeft (file_state last) (StandsAfterRequests s)) }
    ensures unopened { IsNone result.0 → IsUnopened (W.contents writer.old) (W.contents writer.new) result.1 }
{
    if let Err(fault) = prepare_file(rt, path, Wanted::AnyFile) {
        return (None, Err(fault));
    }
    let made = NewLog::beside(rt, path);
    match open_file(rt, path, start) {
        Ok(conn) => {
            let (conn, end) = listen(rt, port, count, conn, writer);
            // Its connection still has the lock of the file.
            made.remove(rt);
            (Some(conn), end)
        }
        Err(fault) => (None, Err(fault)),
    }
}
