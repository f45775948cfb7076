//! Raising a database of an earlier version to the newest.

ghost use Rattle.std.specs.Prelude.{◌≡◌, false, None, option_map, OnOk};
ghost use Rattle.sqlite.specs.Held.{state};
ghost use Rattle.sqlite.specs.State.{HasCleanDisk, Survives};
ghost use Rattle.bike_audit.specs.Audit.{row_name};
ghost use Rattle.bike_recognition.specs.Recognition.{ReadsAny};
ghost use Rattle.bike_migrate.specs.Calls.{DoesInside};
ghost use Rattle.bike_migrate.specs.Raised.{WasRead};
ghost use Rattle.bike_migrate.specs.Raising.{IsOnNewest, IsJudged, Attempts, IsCommitted, IsUndone, CommitsBy};
ghost use Rattle.bike_migrate.specs.Raising.{EndsTransaction};
ghost use Rattle.bike_migrate.specs.Raising.{RaisesInPlace, cause_of, ComesTo, IsRaise};

use crate::build::{build, drop_old};
use crate::fault::{RaiseCause, RaiseFault, UnsoundRow};
use crate::judge::judge;
use crate::stations::read_old;
use bike_audit::{BadRow, Finding, NoWatch, Watch, audit};
use bike_recognition::{Earlier, Found, check_open, find_version_of};
use bike_schema::{StatementFault, has_room};
use bike_sql::inside::{begin, commit, is_at_rest, undo};
use sqlite::{Alter, Connection, Row};
use std::alloc::Global;

/// Makes the newest tables and judges them. Where no row is bad the old tables are dropped, which have these rows.
fn raise_inside<S: Alter, P: Watch>(
    alloc: Global,
    conn: &mut Connection<S>,
    earlier: Earlier,
    stations: &[Row],
    riders: &[Row],
    kept: &[Row],
    watch: &mut P,
) -> Result<Option<BadRow>, StatementFault>
    ensures { DoesInside S.Store (WasRead earlier stations.now riders.now kept.now) conn.old conn.new result
        (λ old new bad. IsJudged earlier old new (option_map row_name bad)) }
{
    build(alloc, conn, earlier, stations, riders, kept)?;
    match judge(alloc, conn, earlier, stations, watch)? {
        Some(bad) => Ok(Some(bad)),
        None => {
            drop_old(conn, earlier)?;
            Ok(None)
        }
    }
}

/// Reads the old rows, begins the transaction and raises the database in it. Nothing is committed.
fn attempt<S: Alter, P: Watch>(
    alloc: Global,
    conn: &mut Connection<S>,
    earlier: Earlier,
    watch: &mut P,
) -> Result<Option<BadRow>, StatementFault>
    ensures { Attempts S.Store earlier conn.old conn.new result }
{
    let rows = read_old(conn, earlier)?;
    begin(conn)?;
    raise_inside(
        alloc,
        conn,
        earlier,
        rows.stations.as_slice(),
        rows.riders.as_slice(),
        rows.kept.as_slice(),
        watch,
    )
}

/// Commits the transaction. `StoreFailed` says nothing of whether it was.
fn end_raised<S: Alter>(conn: &mut Connection<S>) -> Result<(), StatementFault>
    ensures ended { HasCleanDisk (state S.Store conn.new) → OnOk result (IsCommitted S.Store conn.old conn.new) }
    ensures outside { OnOk result (conn.new.in_transaction ≡ false) }
    ensures survives { Survives (state S.Store conn.old) (state S.Store conn.new) (CommitsBy S.Store conn.old None) }
{
    commit(conn)?;
    if conn.is_autocommit() {
        Ok(())
    } else {
        Err(StatementFault::StoreFailed)
    }
}

/// Undoes the transaction. After an error it may be open still.
fn end_undone<S: Alter>(conn: &mut Connection<S>) -> Result<(), StatementFault>
    ensures ended { HasCleanDisk (state S.Store conn.new) → OnOk result (IsUndone S.Store conn.old conn.new) }
    ensures outside { OnOk result (conn.new.in_transaction ≡ false) }
    ensures survives { Survives (state S.Store conn.old) (state S.Store conn.new) (λ _. ⊥) }
{
    undo(conn)?;
    // An open connection is one of which something is known.
    check_open(conn)?;
    if conn.is_autocommit() {
        Ok(())
    } else {
        Err(StatementFault::StoreFailed)
    }
}

/// Ends the transaction: it is committed where no row is bad, and else undone.
fn end<S: Alter>(
    conn: &mut Connection<S>,
    bad: Option<BadRow>,
) -> Result<Option<BadRow>, StatementFault>
    ensures { EndsTransaction S.Store conn.old conn.new bad result }
{
    match bad {
        None => {
            end_raised(conn)?;
            Ok(None)
        }
        Some(bad) => {
            end_undone(conn)?;
            Ok(Some(bad))
        }
    }
}

/// Raises the database and ends the transaction. After an error it may be open still.
fn attempt_whole<S: Alter, P: Watch>(
    alloc: Global,
    conn: &mut Connection<S>,
    earlier: Earlier,
    watch: &mut P,
) -> Result<Option<BadRow>, StatementFault>
    requires { conn.old.in_transaction ≡ false }
    ensures { RaisesInPlace S.Store earlier conn.old conn.new result }
{
    is_at_rest(conn);
    let bad = attempt(alloc, conn, earlier, watch)?;
    end(conn, bad)
}

/// Raises the database of the version, or tells its first bad row and leaves it as it is. No transaction is open then,
/// whatever it answers.
fn raise_earlier<S: Alter, P: Watch>(
    alloc: Global,
    conn: &mut Connection<S>,
    earlier: Earlier,
    watch: &mut P,
) -> Result<Option<BadRow>, StatementFault>
    requires { conn.old.in_transaction ≡ false }
    ensures in_place { RaisesInPlace S.Store earlier conn.old conn.new result }
    ensures ended { HasCleanDisk (state S.Store conn.new) → conn.new.in_transaction ≡ false }
{
    match attempt_whole(alloc, conn, earlier, watch) {
        Ok(bad) => Ok(bad),
        Err(fault) => {
            let _ = undo(conn);
            Err(fault)
        }
    }
}

/// The first bad row of a database of the newest version.
fn audit_newest<S: Alter, P: Watch>(
    alloc: Global,
    conn: &mut Connection<S>,
    watch: &mut P,
) -> Result<Option<BadRow>, StatementFault>
    ensures { ReadsAny S.Store conn.old conn.new result IsOnNewest }
{
    match audit(alloc, conn, watch)? {
        Finding::Sound => Ok(None),
        Finding::Unsound(row) => Ok(Some(row)),
        // It was of the newest version before.
        _ => Err(StatementFault::StoreFailed),
    }
}

/// Why it isn't raised, where a row is bad.
fn cause_of(earlier: Option<Earlier>, bad: Option<BadRow>) -> Option<RaiseCause>
    ensures { result ≡ cause_of earlier bad }
{
    match bad {
        None => None,
        Some(row) => Some(RaiseCause::Unsound(UnsoundRow { earlier, row })),
    }
}

/// Brings the database to the newest version, or tells what it is in place of that. No transaction is open then.
fn raise_any<S: Alter, P: Watch>(
    alloc: Global,
    conn: &mut Connection<S>,
    watch: &mut P,
) -> Result<Option<RaiseCause>, StatementFault>
    requires { conn.old.in_transaction ≡ false }
    ensures { ComesTo S.Store conn.old conn.new result }
{
    match find_version_of(alloc, conn)? {
        // As a new city it may be served only where its tables can be made.
        Found::Empty if has_room(conn) => Ok(None),
        Found::Empty => Err(StatementFault::StoreFailed),
        Found::Newest => Ok(cause_of(None, audit_newest(alloc, conn, watch)?)),
        Found::Of(earlier) => Ok(cause_of(
            Some(earlier),
            raise_earlier(alloc, conn, earlier, watch)?,
        )),
        Found::Newer(version) => Ok(Some(RaiseCause::Newer(version))),
        Found::Foreign => Ok(Some(RaiseCause::Foreign)),
    }
}

/// Raises the database of a connection outside a transaction to the newest version, in one transaction. Tables that
/// stand for an operator at an earlier version stand for it at the newest then; where a row is no operator's the first
/// such is told, and the database is as it was. A database of the newest version is audited, and handed back as it is;
/// one with none of the product's tables is handed back as it is, too, but the store fails where something else has a
/// name that they or their indexes take. Tables of other names stay. A fault tells what the database is, or that memory
/// or the store failed, and hands the connection back outside a transaction. After a failed store this is so where the
/// disk is clean: where something else wrote the file the engine promises nothing, and nothing is committed by the
/// connection.
pub fn raise<S: Alter>(alloc: Global, conn: Connection<S>) -> Result<Connection<S>, RaiseFault<S>>
    requires { conn.in_transaction ≡ false }
    ensures { IsRaise S.Store conn result }
{
    raise_watched(alloc, conn, &mut NoWatch)
}

/// Raises the database as `raise` does, and tells `watch` of each table before it is audited, so that a caller can show
/// how far the audit is.
pub fn raise_watched<S: Alter, P: Watch>(
    alloc: Global,
    mut conn: Connection<S>,
    watch: &mut P,
) -> Result<Connection<S>, RaiseFault<S>>
    requires { conn.in_transaction ≡ false }
    ensures { IsRaise S.Store conn result }
{
    is_at_rest(&conn);
    match raise_any(alloc, &mut conn, watch) {
        Ok(None) => Ok(conn),
        Ok(Some(cause)) => Err(RaiseFault { conn, cause }),
        Err(fault) => Err(RaiseFault::failed(fault, conn)),
    }
}
