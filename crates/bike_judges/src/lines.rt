//! The lines of a query, shown to a judge.

ghost use Rattle.std.specs.Prelude.{◌≡◌, IfOk, Option, option_map};
ghost use Rattle.std.specs.Borrow.{sem};
ghost use Rattle.sqlite_value.specs.Order.{Row};
ghost use Rattle.bike_sql.specs.Calls.{LendsWhere, ReadsWhere, WalksWhere};
ghost use Rattle.bike_schema.specs.Tables.{IsOurs, tables_of};
ghost use Rattle.bike_judges.specs.Judging.{key_row};
ghost use Rattle.bike_judges.specs.Lines.{lines_of};
ghost use Rattle.bike_judges.specs.Showing.{Steps};

use crate::judge::Judge;
use crate::key::BadKey;
use crate::query::Query;
use crate::text::text;
use bike_schema::StatementFault;
use sqlite::{Alter, Connection, Error, Rows};

/// What came of the next line.
#[derive(Drop)]
pub(crate) enum Step {
    /// It was shown, and no bad key is found so far.
    Shown,
    /// The first bad key.
    Found(BadKey),
    /// No line was left.
    End,
}

/// Begins the query.
pub(crate) fn begin_lines<S: Alter>(
    conn: &mut Connection<S>,
    query: Query,
) -> Result<Rows<'_, S>, Error>
    ensures* lends { sem 𝓛 (LendsWhere S.row S.Store IsOurs conn.entry result) }
    ensures walks { WalksWhere S.Store IsOurs conn.entry result (λ db. lines_of query (tables_of db)) }
{
    conn.query(text(query), &[])
}

/// Shows the judge the next line.
fn show_next<S: Alter, J: Judge>(
    rows: &mut Rows<'_, S>,
    judge: &mut J,
) -> Result<Step, StatementFault>
    ensures same_reference { rows.new.conn.ghost_name ≡ rows.old.conn.ghost_name }
    ensures steps { Steps S.Store J.says rows.old.conn.now rows.new.conn.now judge.old judge.new result }
{
    rows.advance()?;
    match rows.get() {
        Some(line) => match judge.take(line)? {
            Some(key) => Ok(Step::Found(key)),
            None => Ok(Step::Shown),
        },
        None => Ok(Step::End),
    }
}

/// The first bad key that the judge finds in the query's lines. The database stays as it was. `NoMemory` where memory
/// is refused; every other fault is the database's, or one that the judge answers.
pub fn judge_lines<S: Alter, J: Judge>(
    conn: &mut Connection<S>,
    query: Query,
    judge: J,
) -> Result<Option<BadKey>, StatementFault>
    ensures { ReadsWhere S.Store IsOurs conn.old conn.new result (λ db found. (verdict : Option Row)
        → J.says judge (lines_of query (tables_of db)) verdict → option_map key_row found ≡ verdict) }
{
    let mut rows = begin_lines(conn, query)?;
    let mut judge = judge;
    'lines: for _ in 0..usize::MAX {
        match show_next(&mut rows, &mut judge)? {
            Step::Shown => {}
            Step::Found(key) => return Ok(Some(key)),
            Step::End => return Ok(judge.end()),
        }
    }
    Err(StatementFault::StoreFailed)
}
