//! The history of a database.

ghost use Rattle.std.specs.Prelude.{◌≡◌, ◌≢◌, ◌≤◌, Err, false};
ghost use Rattle.sqlite.specs.State.{HasCleanDisk};
ghost use Rattle.sqlite.specs.Held.{state};
ghost use Rattle.sqlite_trees.specs.View.{doubt};
ghost use Rattle.bike_schema.specs.Stands.{AllLeft, TreesStandFor};
ghost use Rattle.bike_desk.specs.Desk.{desk_state, IsAt, OfOperator};
ghost use Rattle.bike_audit.specs.Adoption.{LeavesAll};
ghost use Rattle.bike_app.specs.Program.{CrashLeaves};
ghost use Rattle.bike_app.specs.History.{RecountsAt, TellsBehind, TellsFrom, TellsRecounted, history_end};

use bike_audit::{Inspection, NoWatch, look};
use bike_batch::{HistoryFault, write_history};
use bike_console::Fault;
use bike_desk::Desk;
use sqlite::{Alter, Connection};
use std::alloc::Global;
use std::io::Write;

/// What the program tells of a history that was asked for.
fn told(written: Result<(), HistoryFault>) -> Result<u64, Fault>
    ensures { result ≡ history_end written }
{
    match written {
        Ok(()) => Ok(0),
        Err(fault) => Err(Fault::of_history(fault)),
    }
}

/// Writes the history of a desk, behind this number.
fn recount_behind<S: Alter, W: Write>(
    alloc: Global,
    desk: &mut Desk<S>,
    number: u64,
    writer: &mut W,
) -> Result<u64, Fault>
    ensures clean { doubt (desk_state S.Store desk.old).is_clean ≤ doubt (desk_state S.Store desk.new).is_clean }
    ensures told { OfOperator S.Store desk.old desk.new (λ s.
        TellsBehind number s (W.contents writer.old) (W.contents writer.new) result) }
    ensures at { OfOperator S.Store desk.old desk.new (λ s. result ≢ Err Fault.StoreFailed → IsAt S.Store desk.new s) }
    ensures left { OfOperator S.Store desk.old desk.new (λ s.
        AllLeft (desk_state S.Store desk.new) (desk_state S.Store desk.old).may_leave) }
{
    let written = write_history(alloc, desk, number, writer);
    told(written)
}

/// Writes the history of a desk, of which this is the begin, behind the number that is wanted.
fn recount_from<S: Alter, W: Write>(
    alloc: Global,
    desk: &mut Desk<S>,
    begin: u64,
    after: Option<u64>,
    writer: &mut W,
) -> Result<u64, Fault>
    ensures clean { doubt (desk_state S.Store desk.old).is_clean ≤ doubt (desk_state S.Store desk.new).is_clean }
    ensures told { OfOperator S.Store desk.old desk.new (λ s.
        TellsFrom after begin s (W.contents writer.old) (W.contents writer.new) result) }
    ensures at { OfOperator S.Store desk.old desk.new (λ s. result ≢ Err Fault.StoreFailed → IsAt S.Store desk.new s) }
    ensures left { OfOperator S.Store desk.old desk.new (λ s.
        AllLeft (desk_state S.Store desk.new) (desk_state S.Store desk.old).may_leave) }
{
    let number = after.unwrap_or(begin);
    if number < begin {
        Err(Fault::Begins(begin))
    } else {
        recount_behind(alloc, desk, number, writer)
    }
}

/// Writes the history of a desk behind a number, or behind its begin.
fn recount_at<S: Alter, W: Write>(
    alloc: Global,
    desk: &mut Desk<S>,
    after: Option<u64>,
    writer: &mut W,
) -> Result<u64, Fault>
    ensures clean { doubt (desk_state S.Store desk.old).is_clean ≤ doubt (desk_state S.Store desk.new).is_clean }
    ensures told { let db = (desk_state S.Store desk.old).now in OfOperator S.Store desk.old desk.new (λ s.
        RecountsAt after S.Store db desk.new s (W.contents writer.old) (W.contents writer.new) result) }
    ensures left { OfOperator S.Store desk.old desk.new (λ s.
        AllLeft (desk_state S.Store desk.new) (desk_state S.Store desk.old).may_leave) }
{
    match desk.history_begin() {
        Ok(begin) => recount_from(alloc, desk, begin, after, writer),
        Err(fault) => told(Err(HistoryFault::Desk(fault))),
    }
}

/// Looks at the database over a connection outside a transaction and writes what is behind this number of its history:
/// a request line for each accepted request, which `run_lines` would serve again. Without a number that is all behind
/// the begin of the history. With one below the begin nothing is written, and the fault is `Begins`: requests before
/// it were archived, or have no moment of their own. Nothing of the database changes: what a crash may leave of it is
/// what it could leave before. Gives the connection back with the number 0, or with the fault at which that ended. Of a
/// database with none of the product's tables nothing is written, whatever the number.
pub fn report_history<S: Alter, W: Write>(
    alloc: Global,
    after: Option<u64>,
    conn: Connection<S>,
    writer: &mut W,
) -> (Connection<S>, Result<u64, Fault>)
    requires { conn.in_transaction ≡ false }
    ensures clean { doubt (state S.Store conn).is_clean ≤ doubt (state S.Store result.0).is_clean }
    ensures told { HasCleanDisk (state S.Store result.0)
        → TellsRecounted after S.Store (W.contents writer.old) (W.contents writer.new) conn result.0 result.1 }
    ensures kept { CrashLeaves S.Store conn result.0 TreesStandFor }
    ensures stays { LeavesAll S.Store conn result.0 }
{
    match look(alloc, conn, &mut NoWatch) {
        Ok(Inspection::Sound(conn)) => {
            let mut desk = Desk::over(conn);
            let end = recount_at(alloc, &mut desk, after, writer);
            (desk.close(), end)
        }
        Ok(Inspection::Empty(conn)) => (conn, Ok(0)),
        Err(fault) => Fault::refused(fault),
    }
}
