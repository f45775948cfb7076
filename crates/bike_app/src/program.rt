//! The request lines of an input, over a database.

ghost use Rattle.std.specs.Prelude.{◌≡◌, ◌≤◌, false};
ghost use Rattle.sqlite.specs.State.{HasCleanDisk};
ghost use Rattle.sqlite.specs.Held.{state};
ghost use Rattle.sqlite_trees.specs.View.{doubt};
ghost use Rattle.bike_app.specs.Program.{CrashLeaves, Serves, StandsAfterSome};

use bike_audit::adopt;
use bike_batch::run_lines;
use bike_console::Fault;
use sqlite::{Alter, Connection};
use std::alloc::Global;
use std::io::{Read, Write};

/// Takes the connection, which is outside a transaction, into service and serves the input over it, as
/// `run_lines` does. Gives the connection back with the number of lines, or with the fault at which that ended.
pub fn serve<S: Alter, R: Read, W: Write>(
    alloc: Global,
    conn: Connection<S>,
    reader: &mut R,
    writer: &mut W,
) -> (Connection<S>, Result<u64, Fault>)
    requires { conn.in_transaction ≡ false }
    ensures clean { doubt (state S.Store conn).is_clean ≤ doubt (state S.Store result.0).is_clean }
    ensures served { HasCleanDisk (state S.Store result.0)
        → Serves S.Store (R.remaining reader.old) (R.remaining reader.new)
        (W.contents writer.old) (W.contents writer.new) conn result.0 result.1 }
    ensures kept { CrashLeaves S.Store conn result.0 StandsAfterSome }
{
    match adopt(alloc, conn) {
        Ok(mut desk) => {
            let end = run_lines(alloc, &mut desk, reader, writer);
            (desk.close(), end.map_err(Fault::from))
        }
        Err(fault) => Fault::refused(fault),
    }
}
