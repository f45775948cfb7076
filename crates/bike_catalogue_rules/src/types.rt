//! Vehicle types, each with its default plan.

ghost use Rattle.std.specs.Prelude.{◌≡◌, take};
ghost use Rattle.bike_sql.specs.Calls.{ReadsWhere};
ghost use Rattle.bike_book.specs.Tables.{Types};
ghost use Rattle.bike_schema.specs.Tables.{IsOurs};
ghost use Rattle.bike_judges.specs.Verdicts.{JudgesTable};
ghost use Rattle.bike_catalogue_rules.specs.Tests.{has_plan, is_type};

use crate::key::columns_key;
use bike_book::columns::{plans, types};
use bike_judges::{BadKey, LineJudge, LineTest, Query, judge_lines};
use bike_operator::MOST_TYPES;
use bike_readings::{Part, read_plan, read_type};
use bike_schema::StatementFault;
use sqlite::{Alter, Connection, Row};

/// Where the row of a vehicle type stands in its line.
const TYPE_AT: usize = 0;

/// Where that of its plan stands.
const PLAN_AT: usize = TYPE_AT + types::COLUMNS;

/// Whether the plan is there whose row begins in this column, behind that of the segment or vehicle type which names
/// it.
pub(crate) fn has_plan(line: &Row, at: usize) -> bool
    ensures { result ≡ has_plan at line.now }
{
    read_plan(Part::of(line, at, plans::COLUMNS)).is_some()
}

/// A row of `types` spells a vehicle type, its default plan is there, and there is room for it.
#[derive(Drop)]
struct TypeTest;

impl LineTest for TypeTest {
    ghost test = { λ this before line. is_type before line };

    ghost key = { λ this line. take 1 line };

    fn is_good(&self, before: u64, line: &Row) -> Result<bool, StatementFault> {
        Ok(
            before < u64::from(MOST_TYPES)
                && has_plan(line, PLAN_AT)
                && read_type(Part::of(line, TYPE_AT, types::COLUMNS)).is_some(),
        )
    }

    fn bad_key(&self, line: &Row) -> Result<BadKey, StatementFault> {
        columns_key(line, 1)
    }
}

/// The first bad key of `types`, where all tables before it are good. The database stays as it is. `StoreFailed` where
/// the store fails or was shut, `NoMemory` where memory is refused.
pub fn judge_types<S: Alter>(conn: &mut Connection<S>) -> Result<Option<BadKey>, StatementFault>
    ensures { ReadsWhere S.Store IsOurs conn.old conn.new result (JudgesTable Types) }
{
    judge_lines(conn, Query::Types, LineJudge::new(TypeTest))
}
