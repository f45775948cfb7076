//! A store that crashed and is opened again.

ghost use Rattle.std.specs.Prelude.{◌≡◌, ◌≤◌, false, IfOk, IfErr};
ghost use Rattle.sqlite.specs.State.{HasCleanDisk};
ghost use Rattle.sqlite.specs.Held.{state};
ghost use Rattle.sqlite_trees.specs.View.{doubt};
ghost use Rattle.bike_recovery.specs.Reopening.{IsShut, IsShutBy};

use sqlite::{Alter, Connection, Error, ErrorCode};
use sqlite_trees::error::StoreError;
use sqlite_trees::store::Reopen;
use std::alloc::Global;

/// Why a store isn't open again, and what is left of it.
#[derive(Drop)]
pub enum Shut<S> {
    /// Memory was refused.
    NoMemory(S),
    /// The store failed.
    StoreFailed(S),
}

/// The store as it failed to crash and open.
fn shut_by_store<S>(error: StoreError, store: S) -> Shut<S>
    ensures { IsShutBy store (error ≡ StoreError.OutOfMemory) result }
{
    match error {
        StoreError::OutOfMemory => Shut::NoMemory(store),
        _ => Shut::StoreFailed(store),
    }
}

/// The store as a connection over it failed.
fn shut_by_connection<S>(error: Error, store: S) -> Shut<S>
    ensures { IsShutBy store (error ≡ Error.SqliteFailure ErrorCode.OutOfMemory) result }
{
    match error {
        Error::SqliteFailure(ErrorCode::OutOfMemory) => Shut::NoMemory(store),
        _ => Shut::StoreFailed(store),
    }
}

/// A crash of a connection's store at this moment, and a connection over what that leaves.
pub fn open_again<S: Alter + Reopen + Drop>(
    alloc: Global,
    conn: Connection<S>,
) -> Result<Connection<S>, Shut<S>>
    ensures clean { IfOk result (λ again. doubt (state S.Store conn).is_clean ≤ doubt (state S.Store again).is_clean) }
    ensures left { IfOk result (λ again. HasCleanDisk (state S.Store again)
        → (state S.Store conn).may_leave (state S.Store again).now.trees) }
    ensures autocommit { IfOk result (λ again. again.in_transaction ≡ false) }
    ensures refused { IfErr result (IsShut S.Store conn) }
{
    let mut store = conn.into_store();
    match store.crash_and_reopen() {
        Ok(()) => {}
        Err(error) => return Err(shut_by_store(error, store)),
    }
    match Connection::over(alloc, store) {
        Ok(again) => Ok(again),
        Err((error, store)) => Err(shut_by_connection(error, store)),
    }
}
