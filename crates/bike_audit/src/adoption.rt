//! Taking a database into service.

ghost use Rattle.std.specs.Prelude.{◌≡◌, ◌≤◌, false, IfOk, IfErr, MatchResult};
ghost use Rattle.sqlite.specs.State.{HasCleanDisk};
ghost use Rattle.sqlite.specs.Held.{state};
ghost use Rattle.sqlite_trees.specs.View.{doubt};
ghost use Rattle.bike_operator.specs.Operator.{Operator};
ghost use Rattle.bike_schema.specs.Indexes.{HasRoom};
ghost use Rattle.bike_schema.specs.Tables.{HasNone};
ghost use Rattle.bike_schema.specs.Stands.{TreesStandFor};
ghost use Rattle.bike_desk.specs.Desk.{desk_state};
ghost use Rattle.bike_audit.specs.Watching.{WasTold};
ghost use Rattle.bike_audit.specs.Adoption.{failed, cause_of, found_as, Adopts, AreToldBy, Begins, IsOfStatement};
ghost use Rattle.bike_audit.specs.Adoption.{LeavesOrStands};

use crate::finding::{Finding, audit};
use crate::fresh_tables::make_tables;
use crate::tables::BadRow;
use crate::watch::{NoWatch, Watch};
use bike_desk::Desk;
use bike_schema::{StatementFault, has_none, has_room};
use bike_sql::inside::is_at_rest;
use sqlite::{Alter, Connection};
use std::alloc::Global;
use std::error::Error;
use std::fmt;
use std::fmt::{Debug, Display, Formatter};

/// Why a connection wasn't adopted.
#[derive(Debug, Drop)]
pub enum AdoptCause {
    /// The database has some of the product's names, and isn't the product's. It is as it was.
    Foreign,
    /// The tables stand for no operator: this is the first row that is not an operator's. The database is as it was.
    Unsound(BadRow),
    /// The database is of this earlier version of the schema. It is as it was.
    Older(u64),
    /// The database is of this later version of the schema. It is as it was.
    Newer(u64),
    /// Memory was refused. What is stored stands for the operator for which it stood.
    NoMemory,
    /// The store failed. What is stored stands for the operator for which it stood.
    StoreFailed,
}

impl Display for AdoptCause {
    ghost use Rattle.std.specs.Prelude.{Some};
    ghost use Rattle.bike_audit.specs.Adoption.{word_of};

    ghost output = { λ cause. Some (word_of cause) };

    fn fmt<W: fmt::Write>(&self, f: &mut Formatter<W>) -> fmt::Result {
        match self {
            AdoptCause::Foreign => f.write_str("foreign"),
            AdoptCause::Unsound(_) => f.write_str("unsound"),
            AdoptCause::Older(_) => f.write_str("older"),
            AdoptCause::Newer(_) => f.write_str("newer"),
            AdoptCause::NoMemory => f.write_str("out of memory"),
            AdoptCause::StoreFailed => f.write_str("store failed"),
        }
    }
}

/// A connection that wasn't adopted, outside a transaction, and why.
#[derive(Drop)]
pub struct AdoptFault<S: Alter> {
    pub conn: Connection<S>,
    pub cause: AdoptCause,
}

impl<S: Alter> AdoptFault<S> {
    /// A statement on the connection failed.
    pub(crate) fn failed(fault: StatementFault, conn: Connection<S>) -> AdoptFault<S>
        ensures { result ≡ failed fault conn }
    {
        let cause = match fault {
            StatementFault::NoMemory => AdoptCause::NoMemory,
            StatementFault::StoreFailed => AdoptCause::StoreFailed,
        };
        AdoptFault { conn, cause }
    }
}

impl<S: Alter> Display for AdoptFault<S> {
    ghost use Rattle.std.specs.Prelude.{Some};
    ghost use Rattle.bike_audit.specs.Adoption.{word_of};

    ghost output = { λ fault. Some (word_of fault.cause) };

    fn fmt<W: fmt::Write>(&self, f: &mut Formatter<W>) -> fmt::Result {
        Display::fmt(&self.cause, f)
    }
}

/// As for users: a connection shows nothing.
impl<S: Alter> Debug for AdoptFault<S> {
    fn fmt<W: fmt::Write>(&self, f: &mut Formatter<W>) -> fmt::Result {
        Display::fmt(self, f)
    }
}

impl<S: Alter + Drop> Error for AdoptFault<S> {}

/// Why a database that was found to be this isn't adopted, if it isn't.
pub(crate) fn cause_of(finding: Finding) -> Option<AdoptCause>
    ensures { result ≡ cause_of finding }
{
    match finding {
        Finding::Sound => None,
        Finding::Foreign => Some(AdoptCause::Foreign),
        Finding::Unsound(bad) => Some(AdoptCause::Unsound(bad)),
        Finding::Older(version) => Some(AdoptCause::Older(version)),
        Finding::Newer(version) => Some(AdoptCause::Newer(version)),
        // It had a table of the product's before.
        Finding::Empty => Some(AdoptCause::StoreFailed),
    }
}

/// Makes the tables in a database that has none of them, in one transaction. Where it has no room for them the store
/// fails.
fn begin<S: Alter>(mut conn: Connection<S>) -> Result<Desk<S>, AdoptFault<S>>
    requires { conn.in_transaction ≡ false }
    // A desk at the first operator, where no table of ours was there and there was room for them.
    ensures clean { MatchResult result
        (λ d. doubt (state S.Store conn).is_clean ≤ doubt (desk_state S.Store d).is_clean)
        (λ e. doubt (state S.Store conn).is_clean ≤ doubt (state S.Store e.conn).is_clean) }
    ensures begun { HasNone (state S.Store conn).now.schema
        → IfOk result (λ d. HasCleanDisk (desk_state S.Store d) → Begins S.Store conn d) }
    ensures room { IfOk result (λ _. HasRoom (state S.Store conn).now.schema) }
    // Or why not, with the connection as it was or as a crash leaves it.
    ensures told { IfErr result IsOfStatement }
    ensures autocommit { IfErr result (λ e. e.conn.in_transaction ≡ false) }
    ensures crash { HasNone (state S.Store conn).now.schema
        → (s : Operator) → TreesStandFor s (state S.Store conn).now.trees
        → IfErr result (λ e. LeavesOrStands S.Store conn s e.conn) }
{
    is_at_rest(&conn);
    if !has_room(&conn) {
        return Err(AdoptFault::failed(StatementFault::StoreFailed, conn));
    }
    match make_tables(&mut conn) {
        Ok(()) => Ok(Desk::over(conn)),
        Err(fault) => Err(AdoptFault::failed(fault, conn)),
    }
}

/// What comes of a database that was found to be this.
fn found<S: Alter>(conn: Connection<S>, finding: Finding) -> Result<Desk<S>, AdoptFault<S>>
    ensures { result ≡ found_as conn finding }
{
    match cause_of(finding) {
        None => Ok(Desk::over(conn)),
        Some(cause) => Err(AdoptFault { conn, cause }),
    }
}

/// Takes a connection outside a transaction into service. A database with none of the product's tables, and no foreign
/// key that names one, gets them with their indexes in one transaction, and the desk begins with the operator of which
/// nothing was asked; where something else has a name that they take, the store fails, and nothing is changed. Of any
/// other database the tables are audited, and nothing is changed: the desk stands for their operator, if there is one.
/// Tables of other names stay. A fault tells what the database is, or that memory or the store failed, and hands the
/// connection back.
pub fn adopt<S: Alter>(alloc: Global, conn: Connection<S>) -> Result<Desk<S>, AdoptFault<S>>
    requires { conn.in_transaction ≡ false }
    ensures { Adopts S.Store conn result }
{
    adopt_watched(alloc, conn, &mut NoWatch)
}

/// Takes a connection into service as `adopt` does, and tells `watch` of each table before it is audited, so that a
/// caller can show how far the audit is.
pub fn adopt_watched<S: Alter, P: Watch>(
    alloc: Global,
    mut conn: Connection<S>,
    watch: &mut P,
) -> Result<Desk<S>, AdoptFault<S>>
    requires { conn.in_transaction ≡ false }
    ensures adopts { Adopts S.Store conn result }
    ensures watched { WasTold (P.told watch.old) (P.told watch.new) (AreToldBy S.Store conn result) }
{
    is_at_rest(&conn);
    if has_none(&conn) {
        return begin(conn);
    }
    match audit(alloc, &mut conn, watch) {
        Ok(finding) => found(conn, finding),
        Err(fault) => Err(AdoptFault::failed(fault, conn)),
    }
}
