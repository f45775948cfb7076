//! The system and the pricing plans.

ghost use Rattle.std.specs.Prelude.{◌≡◌, [], ◌∷◌, IfOk, is_some, slice_get};
ghost use Rattle.std.specs.FinMap as map;
ghost use Rattle.sqlite_value.specs.declared.value.Value.TheVariants.{Text};
ghost use Rattle.bike_operator.specs.declared.limits.TheConstants.{MOST_PLANS};
ghost use Rattle.bike_operator.specs.View.{is_at_limit};
ghost use Rattle.bike_book.specs.Tables.{System, Plans};
ghost use Rattle.bike_book.specs.Rows.{number_value, plan_row};
ghost use Rattle.bike_book.specs.Found.{row_under, rows_of};
ghost use Rattle.bike_schema.specs.Answers.{Answers};
ghost use Rattle.bike_schema.specs.Within.{rows_from};

use crate::segments::find_segments;
use bike_book::columns::plans;
use bike_catalogue::Plan;
use bike_fields::{Ident, Segment};
use bike_operator::MOST_PLANS;
use bike_schema::{
    ABOVE_TEXTS, StatementFault, are_at_least, flag_at, ident_at, name_at, number_at,
};
use bike_sql::lookup::first_row;
use sqlite::{Alter, Connection, Row, params};
use std::alloc::Global;

/// The one row of `system`, if the system is set.
pub(crate) fn find_system_row<S: Alter>(
    conn: &mut Connection<S>,
) -> Result<Option<Row>, StatementFault>
    ensures { Answers S.Store conn.old conn.new result
        (λ s m row. row ≡ row_under s m System (number_value 1 ∷ [])) }
{
    first_row(conn, "SELECT * FROM system WHERE one = ?1", params![1_i64])
}

/// The plans whose identifiers lie between two values, both among them, in byte order.
const PLANS_WITHIN: &str =
    "SELECT * FROM plans WHERE plan_id >= ?1 AND plan_id <= ?2 ORDER BY plan_id";

/// The plan's row of `plans`.
fn find_plan_row<S: Alter>(
    conn: &mut Connection<S>,
    plan: &Ident,
) -> Result<Option<Row>, StatementFault>
    ensures { Answers S.Store conn.old conn.new result
        (λ s m row. row ≡ row_under s m Plans (Text plan.now ∷ [])) }
{
    first_row(conn, PLANS_WITHIN, params![plan.as_str(), plan.as_str()])
}

/// The row of the first plan whose identifier isn't below a text.
pub fn find_plan_row_from<S: Alter>(
    conn: &mut Connection<S>,
    start: &str,
) -> Result<Option<Row>, StatementFault>
    ensures { Answers S.Store conn.old conn.new result
        (λ s m row. row ≡ slice_get (rows_from start.now (rows_of s m Plans)) 0) }
{
    first_row(conn, PLANS_WITHIN, params![start, ABOVE_TEXTS])
}

/// The rows of all plans, of which there are at most 256.
fn select_plans<S: Alter>(conn: &mut Connection<S>) -> Result<Vec<Row>, StatementFault>
    ensures { Answers S.Store conn.old conn.new result (λ s m rows. rows.items ≡ rows_of s m Plans) }
{
    let rows = conn.query_all(PLANS_WITHIN, params!["", ABOVE_TEXTS])?;
    Ok(rows)
}

/// The plan that stands in a row of `plans`, with its segments.
fn read_plan(alloc: Global, row: &Row, segments: Vec<Segment>) -> Result<Plan, StatementFault>
    ensures { IfOk result (λ x. (p : _) → row.now ≡ plan_row p.plan_id p → segments.items ≡ p.segments → x ≡ p) }
{
    let plan_id = ident_at(alloc, row, plans::PLAN_ID)?;
    let name = name_at(alloc, row, plans::NAME)?;
    let price = number_at(row, plans::PRICE)?;
    let taxable = flag_at(row, plans::TAXABLE)?;
    let description = name_at(alloc, row, plans::DESCRIPTION)?;
    Plan::from_fields(plan_id, name, price, taxable, description, segments).ok_or(
        StatementFault::StoreFailed,
    )
}

/// Whether the system is set. Every fault is the database's.
pub fn has_system<S: Alter>(conn: &mut Connection<S>) -> Result<bool, StatementFault>
    ensures { Answers S.Store conn.old conn.new result (λ s m x. x ≡ is_some s.system) }
{
    let row = find_system_row(conn)?;
    Ok(row.is_some())
}

/// Whether the plan is there. Every fault is the database's.
pub fn has_plan<S: Alter>(conn: &mut Connection<S>, plan: &Ident) -> Result<bool, StatementFault>
    ensures { Answers S.Store conn.old conn.new result (λ s m x. x ≡ map.contains_key s.plans plan.now) }
{
    let row = find_plan_row(conn, plan)?;
    Ok(row.is_some())
}

/// Whether there are as many plans as there may be. Every fault is the database's.
pub fn are_plans_full<S: Alter>(conn: &mut Connection<S>) -> Result<bool, StatementFault>
    ensures { Answers S.Store conn.old conn.new result (λ s m x. x ≡ is_at_limit MOST_PLANS s.plans) }
{
    let rows = select_plans(conn)?;
    Ok(are_at_least(rows.as_slice(), MOST_PLANS))
}

/// The plan, if it is there. `NoMemory` where it finds no room; every other fault is the database's.
pub fn find_plan<S: Alter>(
    alloc: Global,
    conn: &mut Connection<S>,
    plan: &Ident,
) -> Result<Option<Plan>, StatementFault>
    ensures { Answers S.Store conn.old conn.new result (λ s m x. x ≡ map.get s.plans plan.now) }
{
    match find_plan_row(conn, plan)? {
        Some(row) => {
            let segments = find_segments(alloc, conn, plan)?;
            Ok(Some(read_plan(alloc, &row, segments)?))
        }
        None => Ok(None),
    }
}
