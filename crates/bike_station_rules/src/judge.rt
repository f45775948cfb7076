//! The rules of docks and stations, asked of a database.

ghost use Rattle.bike_book.specs.Tables.{Docks, Stations};
ghost use Rattle.bike_sql.specs.Calls.{ReadsWhere};
ghost use Rattle.bike_schema.specs.Tables.{IsOurs};
ghost use Rattle.bike_judges.specs.Verdicts.{JudgesTable};
ghost use Rattle.bike_station_rules.specs.StationVerdicts.{FindsByRow, FindsByNumber};

use crate::account::StationAccount;
use crate::docks::DockTest;
use crate::station_rows::StationTest;
use bike_fixed::Moment;
use bike_judges::{BadKey, LineJudge, Query, StretchJudge, find_now, judge_lines, least};
use bike_schema::StatementFault;
use sqlite::{Alter, Connection};
use std::alloc::Global;

/// The first bad key of `docks`, where all tables before it are good. The database stays as it was. `NoMemory` where
/// memory is refused; every other fault is the database's.
pub fn judge_docks<S: Alter>(conn: &mut Connection<S>) -> Result<Option<BadKey>, StatementFault>
    ensures { ReadsWhere S.Store IsOurs conn.old conn.new result (JudgesTable Docks) }
{
    judge_lines(conn, Query::Docks, LineJudge::new(DockTest))
}

/// The first station whose row isn't good, with that of its region beside it.
fn judge_rows<S: Alter>(
    conn: &mut Connection<S>,
    now: Moment,
) -> Result<Option<BadKey>, StatementFault>
    ensures { ReadsWhere S.Store IsOurs conn.old conn.new result (FindsByRow now) }
{
    judge_lines(
        conn,
        Query::StationRows,
        LineJudge::new(StationTest { now }),
    )
}

/// The first station whose numbers and text aren't those of its docks and bicycles.
fn judge_numbers<S: Alter>(
    alloc: Global,
    conn: &mut Connection<S>,
) -> Result<Option<BadKey>, StatementFault>
    ensures { ReadsWhere S.Store IsOurs conn.old conn.new result FindsByNumber }
{
    let judge: StretchJudge<StationAccount> = StretchJudge::new(alloc);
    judge_lines(conn, Query::Stations, judge)
}

/// The first bad key of `stations_4`, where all tables before it are good. The database stays as it was. `NoMemory`
/// where memory is refused; every other fault is the database's.
pub fn judge_stations<S: Alter>(
    alloc: Global,
    conn: &mut Connection<S>,
) -> Result<Option<BadKey>, StatementFault>
    ensures { ReadsWhere S.Store IsOurs conn.old conn.new result (JudgesTable Stations) }
{
    let now = find_now(conn)?;
    let by_row = judge_rows(conn, now)?;
    let by_number = judge_numbers(alloc, conn)?;
    Ok(least(by_row, by_number))
}
