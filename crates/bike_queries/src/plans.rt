//! The pricing plans in byte order of their identifiers, one after another.

ghost use Rattle.std.specs.Prelude.{◌≡◌, option_map};
ghost use Rattle.bike_book.specs.Stored.{stored_plan};
ghost use Rattle.bike_schema.specs.Answers.{Answers};
ghost use Rattle.bike_queries.specs.After.{IsNext, first_after};

use crate::after::start_of;
use bike_book::columns::plans;
use bike_catalogue::Plan;
use bike_fields::Ident;
use bike_office_reads::{find_plan, find_plan_row_from};
use bike_schema::{StatementFault, ident_at};
use sqlite::{Alter, Connection, Row};
use std::alloc::Global;

/// The row of the first pricing plan whose identifier comes after this one, or of the first of all.
fn select_plan<S: Alter>(
    conn: &mut Connection<S>,
    after: Option<&Ident>,
) -> Result<Option<Row>, StatementFault>
    ensures { Answers S.Store conn.old conn.new result
        (λ s m row. row ≡ option_map stored_plan (first_after (option_map (λ id. id.now) after.entry) s.plans)) }
{
    let start = start_of(after);
    find_plan_row_from(conn, start.as_str())
}

/// The identifier of the first plan after this one.
fn find_next<S: Alter>(
    alloc: Global,
    conn: &mut Connection<S>,
    after: Option<&Ident>,
) -> Result<Option<Ident>, StatementFault>
    ensures { Answers S.Store conn.old conn.new result
        (λ s m x. x ≡ option_map (λ e. e.0) (first_after (option_map (λ id. id.now) after.entry) s.plans)) }
{
    match select_plan(conn, after)? {
        Some(row) => Ok(Some(ident_at(alloc, &row, plans::PLAN_ID)?)),
        None => Ok(None),
    }
}

/// The first pricing plan whose identifier comes after this one, or the first of all, with its segments; `None` where
/// there is none. `NoMemory` where it finds no room; every other fault is the database's.
pub fn find_plan_after<S: Alter>(
    alloc: Global,
    conn: &mut Connection<S>,
    after: Option<&Ident>,
) -> Result<Option<Plan>, StatementFault>
    ensures { Answers S.Store conn.old conn.new result
        (λ s m x. IsNext (λ p. p.plan_id) (first_after (option_map (λ id. id.now) after.entry) s.plans) x) }
{
    match find_next(alloc, conn, after)? {
        Some(plan) => find_plan(alloc, conn, &plan),
        None => Ok(None),
    }
}
