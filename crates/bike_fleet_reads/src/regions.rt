//! The statements on `regions`.

ghost use Rattle.std.specs.Prelude.{◌≡◌, [], ◌∷◌, slice_get};
ghost use Rattle.std.specs.FinMap.{contains_key};
ghost use Rattle.sqlite.specs.declared.types.Value.TheVariants.{Text};
ghost use Rattle.bike_operator.specs.declared.limits.TheConstants.{MOST_REGIONS};
ghost use Rattle.bike_operator.specs.View.{is_at_limit};
ghost use Rattle.bike_book.specs.Tables.{Regions};
ghost use Rattle.bike_book.specs.Found.{row_under, rows_of};
ghost use Rattle.bike_schema.specs.Answers.{Answers};
ghost use Rattle.bike_schema.specs.Within.{rows_from};

use bike_fields::Ident;
use bike_operator::MOST_REGIONS;
use bike_schema::{ABOVE_TEXTS, StatementFault, are_at_least};
use bike_sql::lookup::first_row;
use sqlite::{Alter, Connection, Row, params};

/// The regions whose identifiers lie between two values, both among them, in byte order.
const REGIONS_WITHIN: &str =
    "SELECT * FROM regions WHERE region_id >= ?1 AND region_id <= ?2 ORDER BY region_id";

/// The region's row.
fn select_region<S: Alter>(
    conn: &mut Connection<S>,
    region: &Ident,
) -> Result<Option<Row>, StatementFault>
    ensures { Answers S.Store conn.old conn.new result
        (λ s m row. row ≡ row_under s m Regions (Text region.now ∷ [])) }
{
    first_row(
        conn,
        REGIONS_WITHIN,
        params![region.as_str(), region.as_str()],
    )
}

/// The row of the first region whose identifier isn't below a text.
pub fn find_region_row_from<S: Alter>(
    conn: &mut Connection<S>,
    start: &str,
) -> Result<Option<Row>, StatementFault>
    ensures { Answers S.Store conn.old conn.new result
        (λ s m row. row ≡ slice_get (rows_from start.now (rows_of s m Regions)) 0) }
{
    first_row(conn, REGIONS_WITHIN, params![start, ABOVE_TEXTS])
}

/// The rows of all regions, of which there are at most 256.
fn select_regions<S: Alter>(conn: &mut Connection<S>) -> Result<Vec<Row>, StatementFault>
    ensures { Answers S.Store conn.old conn.new result (λ s m rows. rows.items ≡ rows_of s m Regions) }
{
    let rows = conn.query_all(REGIONS_WITHIN, params!["", ABOVE_TEXTS])?;
    Ok(rows)
}

/// Whether there is a region with this identifier.
pub fn has_region<S: Alter>(
    conn: &mut Connection<S>,
    region: &Ident,
) -> Result<bool, StatementFault>
    ensures { Answers S.Store conn.old conn.new result (λ s m x. x ≡ contains_key s.regions region.now) }
{
    let row = select_region(conn, region)?;
    Ok(row.is_some())
}

/// Whether there are as many regions as there may be, by the rows of all of them.
pub fn are_regions_full<S: Alter>(conn: &mut Connection<S>) -> Result<bool, StatementFault>
    ensures { Answers S.Store conn.old conn.new result (λ s m x. x ≡ is_at_limit MOST_REGIONS s.regions) }
{
    let rows = select_regions(conn)?;
    Ok(are_at_least(rows.as_slice(), MOST_REGIONS))
}
