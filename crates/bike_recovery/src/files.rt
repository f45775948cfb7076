//! Files that are opened after a stop.

ghost use Rattle.std.specs.Prelude.{◌≡◌, ◌≤◌, false, IfOk, IfErr};
ghost use Rattle.sqlite.specs.State.{HasCleanDisk};
ghost use Rattle.sqlite.specs.Files.{file_state};
ghost use Rattle.sqlite_trees.specs.View.{doubt};
ghost use Rattle.sqlite_wal.specs.Files.{image_at};
ghost use Rattle.sqlite_store.specs.FileStore as store;
ghost use Rattle.bike_recovery.specs.Files.{MayHold, LeavesTrees, IsExcused};

use sqlite::{Connection, Error, FileFrom, FileStore, Leftover, Start};
use sqlite_disk::Disk;

/// Why files aren't open: the error, and what is left of them, once the system opened them.
pub type NotOpened<F> = (Error, Option<Leftover<FileFrom<F>>>);

/// Gives a connection over files up, as a stop would, and opens the files at a path, which hold whatever such a stop
/// may leave.
pub fn stop_and_open<D: Disk + Drop, F: Start>(
    rt: &HostRuntime,
    conn: Connection<FileStore<D>>,
    path: &str,
    start: F,
) -> (
    FileStore<D>,
    Result<Connection<FileStore<FileFrom<F>>>, NotOpened<F>>,
)
    ensures clean { doubt (file_state conn).is_clean ≤ doubt (store.view result.0).is_clean }
    ensures left { MayHold result.0 (image_at F.Start)
        → IfOk result.1 (λ again. HasCleanDisk (file_state again)
        → LeavesTrees (file_state conn) (file_state again).now.trees) }
    ensures autocommit { IfOk result.1 (λ again. again.in_transaction ≡ false) }
    ensures refused { MayHold result.0 (image_at F.Start) → IfErr result.1 (λ e. IsExcused e.0 e.1) }
{
    let store = conn.into_store();
    let opened = Connection::open_from(rt, path, false, start);
    (store, opened)
}
