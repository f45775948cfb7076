//! Pricing plans.

ghost use Rattle.std.specs.Prelude.{◌≡◌, take};
ghost use Rattle.bike_sql.specs.Calls.{ReadsWhere};
ghost use Rattle.bike_book.specs.Tables.{Plans};
ghost use Rattle.bike_schema.specs.Tables.{IsOurs};
ghost use Rattle.bike_judges.specs.Verdicts.{JudgesTable};
ghost use Rattle.bike_catalogue_rules.specs.Tests.{is_plan};

use crate::key::columns_key;
use bike_judges::{BadKey, LineJudge, LineTest, Query, judge_lines};
use bike_operator::MOST_PLANS;
use bike_readings::{Part, read_plan};
use bike_schema::StatementFault;
use sqlite::{Alter, Connection, Row};

/// A row of `plans` spells a plan, and there is room for it.
#[derive(Drop)]
struct PlanTest;

impl LineTest for PlanTest {
    ghost test = { λ this before line. is_plan before line };

    ghost key = { λ this line. take 1 line };

    fn is_good(&self, before: u64, line: &Row) -> Result<bool, StatementFault> {
        Ok(before < u64::from(MOST_PLANS) && read_plan(Part::whole(line)).is_some())
    }

    fn bad_key(&self, line: &Row) -> Result<BadKey, StatementFault> {
        columns_key(line, 1)
    }
}

/// The first bad key of `plans`, where all tables before it are good. The database stays as it is. `StoreFailed` where
/// the store fails or was shut, `NoMemory` where memory is refused.
pub fn judge_plans<S: Alter>(conn: &mut Connection<S>) -> Result<Option<BadKey>, StatementFault>
    ensures { ReadsWhere S.Store IsOurs conn.old conn.new result (JudgesTable Plans) }
{
    judge_lines(conn, Query::Plans, LineJudge::new(PlanTest))
}
