//! A statement inside the connection's transaction.

ghost use Rattle.sqlite.specs.Values.{bound};
ghost use Rattle.bike_migrate.specs.Calls.{Runs};

use bike_schema::StatementFault;
use sqlite::types::ValueRef;
use sqlite::{Alter, Connection};

/// Runs a statement that writes.
pub(crate) fn run<S: Alter>(
    conn: &mut Connection<S>,
    sql: &str,
    params: &[ValueRef<'_>],
) -> Result<(), StatementFault>
    ensures { Runs S.Store conn.old conn.new sql.now (bound params.now) result }
{
    conn.execute(sql, params)?;
    Ok(())
}
