//! The statements on `types`.

ghost use Rattle.std.specs.Prelude.{◌≡◌, [], ◌∷◌, IfOk, option_map, slice_get};
ghost use Rattle.std.specs.FinMap.{contains_key, get};
ghost use Rattle.sqlite.specs.declared.types.Value.TheVariants.{Text};
ghost use Rattle.bike_operator.specs.declared.limits.TheConstants.{MOST_TYPES};
ghost use Rattle.bike_operator.specs.View.{is_at_limit};
ghost use Rattle.bike_book.specs.Tables.{Types};
ghost use Rattle.bike_book.specs.Found.{row_under, rows_of};
ghost use Rattle.bike_schema.specs.Answers.{Answers};
ghost use Rattle.bike_schema.specs.Within.{rows_from};
ghost use Rattle.bike_fleet_reads.specs.Holds.{HoldsAny, HoldsPlan};

use bike_book::columns::types;
use bike_fields::Ident;
use bike_operator::MOST_TYPES;
use bike_schema::{ABOVE_TEXTS, StatementFault, are_at_least, ident_at};
use bike_sql::lookup::first_row;
use sqlite::{Alter, Connection, Row, params};
use std::alloc::Global;

/// The vehicle types whose identifiers lie between two values, both among them, in byte order.
const TYPES_WITHIN: &str =
    "SELECT * FROM types WHERE type_id >= ?1 AND type_id <= ?2 ORDER BY type_id";

/// The type's row.
fn select_type<S: Alter>(
    conn: &mut Connection<S>,
    type_id: &Ident,
) -> Result<Option<Row>, StatementFault>
    ensures { Answers S.Store conn.old conn.new result
        (λ s m row. row ≡ row_under s m Types (Text type_id.now ∷ [])) }
{
    first_row(
        conn,
        TYPES_WITHIN,
        params![type_id.as_str(), type_id.as_str()],
    )
}

/// The row of the first vehicle type whose identifier isn't below a text.
pub fn find_type_row_from<S: Alter>(
    conn: &mut Connection<S>,
    start: &str,
) -> Result<Option<Row>, StatementFault>
    ensures { Answers S.Store conn.old conn.new result
        (λ s m row. row ≡ slice_get (rows_from start.now (rows_of s m Types)) 0) }
{
    first_row(conn, TYPES_WITHIN, params![start, ABOVE_TEXTS])
}

/// The rows of all vehicle types, of which there are at most 32, in byte order of their identifiers.
pub fn select_types<S: Alter>(conn: &mut Connection<S>) -> Result<Vec<Row>, StatementFault>
    ensures { Answers S.Store conn.old conn.new result (λ s m rows. rows.items ≡ rows_of s m Types) }
{
    let rows = conn.query_all(TYPES_WITHIN, params!["", ABOVE_TEXTS])?;
    Ok(rows)
}

/// The default plan in the stored row.
fn plan_of(alloc: Global, row: &Option<Row>) -> Result<Option<Ident>, StatementFault>
    ensures { IfOk result (λ plan. HoldsAny HoldsPlan row.now plan) }
{
    match row {
        Some(row) => {
            let plan = ident_at(alloc, row, types::PLAN_ID)?;
            Ok(Some(plan))
        }
        None => Ok(None),
    }
}

/// Whether there is a vehicle type with this identifier.
pub fn has_type<S: Alter>(conn: &mut Connection<S>, type_id: &Ident) -> Result<bool, StatementFault>
    ensures { Answers S.Store conn.old conn.new result (λ s m x. x ≡ contains_key s.types type_id.now) }
{
    let row = select_type(conn, type_id)?;
    Ok(row.is_some())
}

/// The default pricing plan of a vehicle type; `None` where there is no such type.
pub fn find_default_plan<S: Alter>(
    alloc: Global,
    conn: &mut Connection<S>,
    type_id: &Ident,
) -> Result<Option<Ident>, StatementFault>
    ensures { Answers S.Store conn.old conn.new result
        (λ s m x. x ≡ option_map (λ t. t.plan_id) (get s.types type_id.now)) }
{
    let row = select_type(conn, type_id)?;
    plan_of(alloc, &row)
}

/// Whether there are as many vehicle types as there may be, by the rows of all of them.
pub fn are_types_full<S: Alter>(conn: &mut Connection<S>) -> Result<bool, StatementFault>
    ensures { Answers S.Store conn.old conn.new result (λ s m x. x ≡ is_at_limit MOST_TYPES s.types) }
{
    let rows = select_types(conn)?;
    Ok(are_at_least(rows.as_slice(), MOST_TYPES))
}
