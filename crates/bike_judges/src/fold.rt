//! What is computed over the lines of a query.

ghost use Rattle.std.specs.Prelude.{◌≡◌, IfOk, OnOk, fold};
ghost use Rattle.sqlite_value.specs.Order.{Row};
ghost use Rattle.bike_sql.specs.Calls.{ReadsWhere};
ghost use Rattle.bike_schema.specs.Tables.{IsOurs, tables_of};
ghost use Rattle.bike_judges.specs.Lines.{lines_of};
ghost use Rattle.bike_judges.specs.Showing.{ComesTo, Steps};

use crate::lines::{Step, begin_lines};
use crate::query::Query;
use bike_schema::StatementFault;
use sqlite::{Alter, Connection, Row, Rows};

/// What is computed over lines, one after another.
pub trait LineFold: Drop {
    /// What it is after one more line.
    ghost after: { Self → Row → Self };

    /// Adds the next line. It is an error where memory is refused or a number passes its bounds, which no stored city's
    /// does.
    fn add(&mut self, line: &Row) -> Result<(), StatementFault>
        ensures { OnOk result (self.new ≡ after self.old line.now) };
}

/// Adds the next line.
fn add_next<S: Alter, F: LineFold>(
    rows: &mut Rows<'_, S>,
    lines: &mut F,
) -> Result<Step, StatementFault>
    ensures same_reference { rows.new.conn.ghost_name ≡ rows.old.conn.ghost_name }
    ensures steps { (total : _)
        → Steps S.Store (ComesTo F.after total) rows.old.conn.now rows.new.conn.now lines.old lines.new result }
{
    rows.advance()?;
    match rows.get() {
        Some(line) => {
            lines.add(line)?;
            Ok(Step::Shown)
        }
        None => Ok(Step::End),
    }
}

/// What it comes to over all lines of the query, from `first` on. The database stays as it was. `NoMemory` where memory
/// is refused; every other fault is the database's, or one that the fold answers.
pub fn fold_lines<S: Alter, F: LineFold>(
    conn: &mut Connection<S>,
    query: Query,
    first: F,
) -> Result<F, StatementFault>
    ensures { ReadsWhere S.Store IsOurs conn.old conn.new result
        (λ db total. total ≡ fold F.after first (lines_of query (tables_of db))) }
{
    let mut rows = begin_lines(conn, query)?;
    let mut so_far = first;
    'lines: for _ in 0..usize::MAX {
        match add_next(&mut rows, &mut so_far)? {
            Step::Shown => {}
            Step::Found(_) => return Err(StatementFault::StoreFailed),
            Step::End => return Ok(so_far),
        }
    }
    Err(StatementFault::StoreFailed)
}
