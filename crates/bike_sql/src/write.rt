//! Statements that write.

ghost use Rattle.sqlite.specs.Values.{bound};
ghost use Rattle.bike_sql.specs.Runs.{RunsInside};

use sqlite::types::ValueRef;
use sqlite::{Alter, Error, Transaction};

/// Runs a statement that shows no rows. What the database refuses is an error of the caller's own.
pub fn run<S: Alter, E: From<Error>>(
    tx: &mut Transaction<'_, S>,
    sql: &str,
    params: &[ValueRef<'_>],
) -> Result<(), E>
    ensures { RunsInside S.Store tx.old.conn tx.new.conn sql.now (bound params.now) E.from_gives result }
{
    tx.execute(sql, params)?;
    Ok(())
}
