//! The rules of bicycles.

ghost use Rattle.bike_book.specs.Tables.{Bikes};
ghost use Rattle.bike_sql.specs.Calls.{ReadsWhere};
ghost use Rattle.bike_schema.specs.Tables.{IsOurs};
ghost use Rattle.bike_judges.specs.Verdicts.{JudgesTable};

use crate::bike_tests::{BikeNames, BikeTrucks, BikeUses};
use crate::docks::DockJudge;
use bike_judges::{BadKey, LineJudge, Query, judge_lines, least};
use bike_schema::StatementFault;
use sqlite::{Alter, Connection};

/// The first bad key of `bikes`, where all tables before it are good: a row that spells no bicycle in one place, a
/// bicycle past the limit, one whose type, dock or truck isn't there, a retired one outside the depot, one in a rental
/// or on a truck that isn't its own, or one in a dock with another of a lesser number. `NoMemory` where memory is
/// refused; every other fault is the database's.
pub fn judge_bikes<S: Alter>(conn: &mut Connection<S>) -> Result<Option<BadKey>, StatementFault>
    ensures { ReadsWhere S.Store IsOurs conn.old conn.new result (JudgesTable Bikes) }
{
    let names = LineJudge::new(BikeNames);
    let named = judge_lines(conn, Query::BikeNames, names)?;
    let uses = LineJudge::new(BikeUses);
    let used = judge_lines(conn, Query::BikeUses, uses)?;
    let trucks = LineJudge::new(BikeTrucks);
    let borne = judge_lines(conn, Query::BikeTrucks, trucks)?;
    let docks = DockJudge::new();
    let shared = judge_lines(conn, Query::BikeDocks, docks)?;
    Ok(least(least(least(named, used), borne), shared))
}
