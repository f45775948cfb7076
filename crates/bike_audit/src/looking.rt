//! Looking at a database, which changes nothing.

ghost use Rattle.std.specs.Prelude.{◌≡◌, false};
ghost use Rattle.bike_audit.specs.Adoption.{looked_as, Looks};

use crate::adoption::{AdoptFault, cause_of};
use crate::finding::{Finding, audit};
use crate::watch::Watch;
use bike_schema::{StatementFault, has_none, has_room};
use bike_sql::inside::is_at_rest;
use sqlite::{Alter, Connection};
use std::alloc::Global;

/// A database that may be served, as it was before it was looked at.
#[derive(Drop)]
pub enum Inspection<S: Alter> {
    /// Its tables stand for an operator.
    Sound(Connection<S>),
    /// It has none of the product's tables, and room for them.
    Empty(Connection<S>),
}

/// What comes of a database that was found to be this.
fn seen_as<S: Alter>(conn: Connection<S>, finding: Finding) -> Result<Inspection<S>, AdoptFault<S>>
    ensures { result ≡ looked_as conn finding }
{
    match cause_of(finding) {
        None => Ok(Inspection::Sound(conn)),
        Some(cause) => Err(AdoptFault { conn, cause }),
    }
}

/// Looks at a database over a connection outside a transaction, and changes nothing of it: what it is, and whether its
/// tables stand for an operator, as `adopt` finds it. A database with none of the product's tables gets none; where
/// something else has a name that they take, the store fails, as it does in `adopt`. A fault tells what the database
/// is, or that memory or the store failed, and hands the connection back. `watch` is told of each table before it is
/// audited.
pub fn look<S: Alter, P: Watch>(
    alloc: Global,
    mut conn: Connection<S>,
    watch: &mut P,
) -> Result<Inspection<S>, AdoptFault<S>>
    requires { conn.in_transaction ≡ false }
    ensures { Looks S.Store conn result }
{
    is_at_rest(&conn);
    if has_none(&conn) {
        if has_room(&conn) {
            return Ok(Inspection::Empty(conn));
        }
        return Err(AdoptFault::failed(StatementFault::StoreFailed, conn));
    }
    match audit(alloc, &mut conn, watch) {
        Ok(finding) => seen_as(conn, finding),
        Err(fault) => Err(AdoptFault::failed(fault, conn)),
    }
}
