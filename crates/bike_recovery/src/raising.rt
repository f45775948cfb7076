//! What an earlier program left is raised, with a stop on the way, taken into service and read.

ghost use Rattle.std.specs.Prelude.{◌≡◌, ◌≤◌, false, IfOk, IfErr, IsTrue};
ghost use Rattle.sqlite.specs.State.{HasCleanDisk};
ghost use Rattle.sqlite.specs.Held.{state};
ghost use Rattle.sqlite_trees.specs.View.{doubt};
ghost use Rattle.bike_operator.specs.Operator.{Operator};
ghost use Rattle.bike_schema.specs.Stands.{AllLeft};
ghost use Rattle.bike_recognition.specs.EarlierVersions.Stores.{TreesStandForAt};
ghost use Rattle.bike_migrate.specs.Raising.{Holds, TreesStandSince};
ghost use Rattle.bike_recovery.specs.Recovery.{IfReadAgain, ReadsOf};
ghost use Rattle.bike_recovery.specs.Unraised.{IsOnlyWantOf};

use crate::reading::{Reading, read_again};
use crate::reopening::{Shut, open_again};
use bike_audit::{AdoptFault, adopt};
use bike_desk::Desk;
use bike_fields::BicycleNumber;
use bike_fixed::Moment;
use bike_migrate::{RaiseFault, raise};
use sqlite::{Alter, Connection};
use sqlite_trees::store::Reopen;
use std::alloc::Global;
use std::io::Write;

/// Why a database wasn't raised and taken into service.
#[derive(Drop)]
pub enum Unraised<S: Alter> {
    /// Its store couldn't be opened again.
    Shut(Shut<S>),
    /// It wasn't raised.
    Refused(RaiseFault<S>),
    /// It was raised, and not adopted.
    Unadopted(AdoptFault<S>),
}

/// A raise, whatever comes of it: a fault is dropped, as where the program stops.
fn raise_anyhow<S: Alter>(alloc: Global, conn: Connection<S>) -> Connection<S>
    requires { conn.in_transaction ≡ false }
    ensures clean { doubt (state S.Store conn).is_clean ≤ doubt (state S.Store result).is_clean }
    ensures left { HasCleanDisk (state S.Store result) → (v : _) (s : Operator)
        → TreesStandForAt v s (state S.Store conn).now.trees → IsTrue (state S.Store conn).is_open
        → AllLeft (state S.Store result) (TreesStandSince v s) }
{
    match raise(alloc, conn) {
        Ok(conn) => conn,
        Err(fault) => fault.conn,
    }
}

/// A crash of the store at this moment, and a raise of what it leaves.
fn raise_again<S: Alter + Reopen + Drop>(
    alloc: Global,
    conn: Connection<S>,
) -> Result<Connection<S>, Unraised<S>>
    ensures clean { IfOk result (λ c. doubt (state S.Store conn).is_clean ≤ doubt (state S.Store c).is_clean) }
    ensures outside { IfOk result (λ c. c.in_transaction ≡ false) }
    ensures raised { IfOk result (λ c. HasCleanDisk (state S.Store c) → (v : _) (s : Operator)
        → AllLeft (state S.Store conn) (TreesStandSince v s) → Holds (state S.Store c) s) }
    ensures refused { (v : _) (s : Operator)
        → (HasCleanDisk (state S.Store conn) → AllLeft (state S.Store conn) (TreesStandSince v s))
        → IfErr result (IsOnlyWantOf S.Store) }
{
    let again = match open_again(alloc, conn) {
        Ok(again) => again,
        Err(shut) => return Err(Unraised::Shut(shut)),
    };
    match raise(alloc, again) {
        Ok(raised) => Ok(raised),
        Err(fault) => Err(Unraised::Refused(fault)),
    }
}

/// Raises what an earlier program left, crashes at whatever the raise came to, raises what the crash leaves, takes it
/// into service and reads it: where the bicycle is, and the feed `station_status` for a moment.
///
/// What is read is that of the operator for which the database stood, at whichever version that was. It is refused for
/// memory or storage alone.
pub fn raise_crash_and_read<S: Alter + Reopen + Drop, W: Write>(
    alloc: Global,
    conn: Connection<S>,
    bike: BicycleNumber,
    moment: Moment,
    out: &mut W,
) -> Result<(Desk<S>, Reading), Unraised<S>>
    requires { conn.in_transaction ≡ false }
    ensures headline { (v : _) (s : Operator) → TreesStandForAt v s (state S.Store conn).now.trees
        → IsTrue (state S.Store conn).is_open
        → IfReadAgain S.Store result (λ again reading.
        ReadsOf S.Store again s bike moment (W.contents out.old) (W.contents out.new) reading) }
    ensures refused { (v : _) (s : Operator) → TreesStandForAt v s (state S.Store conn).now.trees
        → IsTrue (state S.Store conn).is_open
        → IfErr result (IsOnlyWantOf S.Store) }
{
    let first = raise_anyhow(alloc, conn);
    let raised = match raise_again(alloc, first) {
        Ok(raised) => raised,
        Err(unraised) => return Err(unraised),
    };
    match adopt(alloc, raised) {
        Ok(mut desk) => {
            let reading = read_again(alloc, &mut desk, bike, moment, out);
            Ok((desk, reading))
        }
        Err(fault) => Err(Unraised::Unadopted(fault)),
    }
}
