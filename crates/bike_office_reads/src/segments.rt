//! The segments of pricing plans.

ghost use Rattle.std.specs.Prelude.{◌≡◌, [], ◌∷◌, IfOk, Some};
ghost use Rattle.std.specs.FinMap as map;
ghost use Rattle.sqlite_value.specs.declared.value.Value.TheVariants.{Int, Text};
ghost use Rattle.sqlite_value.specs.Order.{column};
ghost use Rattle.bike_book.specs.Tables.{Segments};
ghost use Rattle.bike_book.specs.Rows.{segment_row};
ghost use Rattle.bike_book.specs.Stored.{segment_rows};
ghost use Rattle.bike_book.specs.Found.{rows_by};
ghost use Rattle.bike_schema.specs.Answers.{Answers, IsReadOf};

use bike_book::columns::segments;
use bike_fields::{Ident, Rate, Segment};
use bike_schema::{StatementFault, cents_at, number_at, optional_number_at};
use sqlite::{Alter, Connection, Row, params};
use std::alloc::Global;

/// The rows of the plan's segments, of which there are at most eight, in their order.
fn find_segment_rows<S: Alter>(
    conn: &mut Connection<S>,
    plan: &Ident,
) -> Result<Vec<Row>, StatementFault>
    ensures { Answers S.Store conn.old conn.new result
        (λ s m rows. rows.items ≡ rows_by s m Segments (0 ∷ []) (Text plan.now ∷ [])) }
{
    let rows = conn.query_all(
        "SELECT * FROM segments WHERE plan_id = ?1 ORDER BY plan_id, seq",
        params![plan.as_str()],
    )?;
    Ok(rows)
}

/// The rate that stands in a row of `segments`.
fn read_rate(row: &Row) -> Result<Rate, StatementFault>
    ensures { IfOk result (λ x. (rate : _) → column row.now 3 ≡ Int rate → x ≡ rate) }
{
    let hundredths = cents_at(row, segments::RATE)?.hundredths();
    let Ok(hundredths) = i32::try_from(hundredths) else {
        return Err(StatementFault::StoreFailed);
    };
    Rate::new(hundredths).ok_or(StatementFault::StoreFailed)
}

/// The segment that stands in a row of `segments`, whatever its plan and its place in it.
fn read_segment(row: &Row) -> Result<Segment, StatementFault>
    ensures { (id : _) (seq : _) → IsReadOf (segment_row id seq) row.now result }
{
    let start = number_at(row, segments::START)?;
    let rate = read_rate(row)?;
    let interval = number_at(row, segments::EVERY)?;
    let end = optional_number_at(row, segments::FINISH)?;
    Segment::from_fields(start, rate, interval, end).ok_or(StatementFault::StoreFailed)
}

/// The segments that stand in all rows of a plan.
fn read_segments(alloc: Global, rows: &[Row]) -> Result<Vec<Segment>, StatementFault>
    ensures { IfOk result (λ x. (id : _) (segments : _) → rows.now ≡ segment_rows id 1 segments → x.items ≡ segments) }
{
    let mut segments = Vec::new(alloc);
    for row in rows {
        let segment = read_segment(row)?;
        if segments.push(segment).is_err() {
            return Err(StatementFault::NoMemory);
        }
    }
    Ok(segments)
}

/// The segments of a plan that is there, in their order.
pub(crate) fn find_segments<S: Alter>(
    alloc: Global,
    conn: &mut Connection<S>,
    plan: &Ident,
) -> Result<Vec<Segment>, StatementFault>
    ensures { Answers S.Store conn.old conn.new result
        (λ s m x. (p : _) → map.get s.plans plan.now ≡ Some p → x.items ≡ p.segments) }
{
    let rows = find_segment_rows(conn, plan)?;
    read_segments(alloc, rows.as_slice())
}
