//! Regions.

ghost use Rattle.std.specs.Prelude.{◌≡◌, take};
ghost use Rattle.bike_sql.specs.Calls.{ReadsWhere};
ghost use Rattle.bike_book.specs.Tables.{Regions};
ghost use Rattle.bike_schema.specs.Tables.{IsOurs};
ghost use Rattle.bike_judges.specs.Verdicts.{JudgesTable};
ghost use Rattle.bike_catalogue_rules.specs.Tests.{is_region};

use crate::key::columns_key;
use bike_judges::{BadKey, LineJudge, LineTest, Query, judge_lines};
use bike_operator::MOST_REGIONS;
use bike_readings::{Part, read_region};
use bike_schema::StatementFault;
use sqlite::{Alter, Connection, Row};

/// A row of `regions` spells a region, and there is room for it.
#[derive(Drop)]
struct RegionTest;

impl LineTest for RegionTest {
    ghost test = { λ this before line. is_region before line };

    ghost key = { λ this line. take 1 line };

    fn is_good(&self, before: u64, line: &Row) -> Result<bool, StatementFault> {
        Ok(before < u64::from(MOST_REGIONS) && read_region(Part::whole(line)).is_some())
    }

    fn bad_key(&self, line: &Row) -> Result<BadKey, StatementFault> {
        columns_key(line, 1)
    }
}

/// The first bad key of `regions`, where all tables before it are good. The database stays as it is. `StoreFailed`
/// where the store fails or was shut, `NoMemory` where memory is refused.
pub fn judge_regions<S: Alter>(conn: &mut Connection<S>) -> Result<Option<BadKey>, StatementFault>
    ensures { ReadsWhere S.Store IsOurs conn.old conn.new result (JudgesTable Regions) }
{
    judge_lines(conn, Query::Regions, LineJudge::new(RegionTest))
}
