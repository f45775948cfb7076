//! The row of the system.

ghost use Rattle.std.specs.Prelude.{take};
ghost use Rattle.bike_sql.specs.Calls.{ReadsWhere};
ghost use Rattle.bike_book.specs.Tables.{System};
ghost use Rattle.bike_schema.specs.Tables.{IsOurs};
ghost use Rattle.bike_judges.specs.Verdicts.{JudgesTable};
ghost use Rattle.bike_catalogue_rules.specs.Tests.{is_system};

use crate::key::number_key;
use bike_judges::{BadKey, LineJudge, LineTest, Query, judge_lines};
use bike_readings::{Part, read_system};
use bike_schema::StatementFault;
use sqlite::{Alter, Connection, Row};

/// A row of `system` spells a system.
#[derive(Drop)]
struct SystemTest;

impl LineTest for SystemTest {
    ghost test = { λ this before line. is_system before line };

    ghost key = { λ this line. take 1 line };

    fn is_good(&self, _before: u64, line: &Row) -> Result<bool, StatementFault> {
        Ok(read_system(Part::whole(line)).is_some())
    }

    fn bad_key(&self, line: &Row) -> Result<BadKey, StatementFault> {
        number_key(line)
    }
}

/// The first bad key of `system`, where all tables before it are good. The database stays as it is. `StoreFailed` where
/// the store fails or was shut, `NoMemory` where memory is refused.
pub fn judge_system<S: Alter>(conn: &mut Connection<S>) -> Result<Option<BadKey>, StatementFault>
    ensures { ReadsWhere S.Store IsOurs conn.old conn.new result (JudgesTable System) }
{
    judge_lines(conn, Query::System, LineJudge::new(SystemTest))
}
