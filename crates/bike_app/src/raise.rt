//! Raising a database to the newest version.

ghost use Rattle.std.specs.Prelude.{◌≡◌, ◌≤◌, false};
ghost use Rattle.sqlite.specs.State.{HasCleanDisk};
ghost use Rattle.sqlite.specs.Held.{state};
ghost use Rattle.sqlite_trees.specs.View.{doubt};
ghost use Rattle.bike_app.specs.Raises.{CrashLeavesRaised, TellsRaised};

use crate::words::write_line;
use bike_audit::Watch;
use bike_console::Fault;
use bike_migrate::raise_watched;
use sqlite::{Alter, Connection};
use std::alloc::Global;
use std::io::Write;

/// Raises the database to the newest version, as `raise` of `bike_migrate` does, and tells that by the line `version`
/// with its number. `watch` is told how far the audit is.
pub fn raise_up<S: Alter, W: Write, P: Watch>(
    alloc: Global,
    conn: Connection<S>,
    writer: &mut W,
    watch: &mut P,
) -> (Connection<S>, Result<u64, Fault>)
    requires { conn.in_transaction ≡ false }
    ensures clean { doubt (state S.Store conn).is_clean ≤ doubt (state S.Store result.0).is_clean }
    ensures told { HasCleanDisk (state S.Store result.0)
        → TellsRaised S.Store (W.contents writer.old) (W.contents writer.new) conn result.0 result.1 }
    ensures left { CrashLeavesRaised S.Store conn result.0 }
{
    match raise_watched(alloc, conn, watch) {
        Ok(conn) => (conn, write_line(writer, "version 4\n")),
        Err(fault) => {
            let (conn, told) = Fault::taken_from_raise(fault);
            (conn, Err(told))
        }
    }
}
