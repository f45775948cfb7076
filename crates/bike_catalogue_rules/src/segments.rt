//! Segments of plans.

ghost use Rattle.std.specs.Prelude.{◌≡◌, Option, None, option_map, option_and_then};
ghost use Rattle.sqlite_value.specs.Order.{Row};
ghost use Rattle.bike_sql.specs.Calls.{ReadsWhere};
ghost use Rattle.bike_book.specs.Tables.{Segments};
ghost use Rattle.bike_schema.specs.Tables.{IsOurs};
ghost use Rattle.bike_judges.specs.Verdicts.{JudgesTable};
ghost use Rattle.bike_catalogue_rules.specs.Tests.{segment_name, comes_after, is_next, first_astray};

use crate::key::columns_key;
use crate::types::has_plan;
use bike_book::columns::segments;
use bike_fixed::Within;
use bike_judges::{BadKey, Judge, Query, judge_lines};
use bike_readings::{Part, read_segment};
use bike_schema::StatementFault;
use sqlite::{Alter, Connection, Row};

/// Where the row of a segment stands in its line.
const SEGMENT_AT: usize = 0;

/// Where that of its plan stands.
const PLAN_AT: usize = SEGMENT_AT + segments::COLUMNS;

/// A segment by its plan, where that is there, and its number in it.
#[derive(Clone, Copy)]
struct SegmentName<'a> {
    plan: &'a str,
    number: Within<1, 8>,
}

/// The name of the segment in a line.
fn segment_name(line: &Row) -> Option<SegmentName<'_>>
    ensures { option_map (λ e. (e.plan.now, e.number)) result ≡ segment_name line.now }
{
    if !has_plan(line, PLAN_AT) {
        return None;
    }
    match read_segment(Part::of(line, SEGMENT_AT, segments::COLUMNS)) {
        Some(segment) => Some(SegmentName {
            plan: segment.plan_id,
            number: segment.seq,
        }),
        None => None,
    }
}

/// Whether a segment is the one after that in the line before.
fn comes_after(before: &Option<Row>, segment: &SegmentName<'_>) -> bool
    ensures { result ≡ comes_after (option_and_then segment_name before.now)
        (segment.now.plan.now, segment.now.number) }
{
    let Some(line) = before else {
        return false;
    };
    match segment_name(line) {
        Some(before) => {
            before.plan == segment.plan && before.number.get() + 1 == segment.number.get()
        }
        None => false,
    }
}

/// Whether the segment in a line is the first of its plan, or the one after that in the line before.
fn is_next(before: &Option<Row>, line: &Row) -> bool
    ensures { result ≡ is_next (option_and_then segment_name before.now) (segment_name line.now) }
{
    match segment_name(line) {
        Some(segment) => segment.number.get() == 1 || comes_after(before, &segment),
        None => false,
    }
}

/// Finds the first segment that isn't the next one of a plan.
#[derive(Drop)]
struct SegmentJudge {
    /// The line before, which was good.
    before: Option<Row>,
}

impl Judge for SegmentJudge {
    ghost says = { λ j lines verdict. first_astray (option_and_then segment_name j.before) lines ≡ verdict };

    fn take(&mut self, line: &Row) -> Result<Option<BadKey>, StatementFault> {
        if !is_next(&self.before, line) {
            return Ok(Some(columns_key(line, 2)?));
        }
        self.before = Some(line.copy()?);
        Ok(None)
    }

    fn end(self) -> Option<BadKey> {
        None
    }
}

/// The first bad key of `segments`, where all tables before it are good. The database stays as it is. `StoreFailed`
/// where the store fails or was shut, `NoMemory` where memory is refused.
pub fn judge_segments<S: Alter>(conn: &mut Connection<S>) -> Result<Option<BadKey>, StatementFault>
    ensures { ReadsWhere S.Store IsOurs conn.old conn.new result (JudgesTable Segments) }
{
    judge_lines(conn, Query::Segments, SegmentJudge { before: None })
}
