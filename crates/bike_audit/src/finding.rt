//! What a database is, and whether its tables stand for an operator.

ghost use Rattle.bike_sql.specs.Calls.{ReadsWhere};
ghost use Rattle.bike_schema.specs.Tables.{HasTables};
ghost use Rattle.bike_recognition.specs.Recognition.{ReadsAny};
ghost use Rattle.bike_audit.specs.Audit.{IsAudited, IsByRules};
ghost use Rattle.bike_audit.specs.Watching.{WasTold, AreToldOf};

use crate::tables::{BadRow, first_bad_row};
use crate::watch::Watch;
use bike_recognition::{Recognition, check_open, recognise};
use bike_schema::StatementFault;
use bike_sql::inside::obeys_schema;
use sqlite::{Alter, Connection};
use std::alloc::Global;

/// What the audit finds a database to be.
#[derive(Debug, Drop)]
pub enum Finding {
    /// It has no table of the product's names.
    Empty,
    /// All tables stand, in the newest version, and stand for an operator.
    Sound,
    /// It has some of the names, and isn't the product's.
    Foreign,
    /// All tables stand, in the newest version; this is the first row that is not an operator's.
    Unsound(BadRow),
    /// It is of this earlier version of the schema.
    Older(u64),
    /// It is of this later version of the schema.
    Newer(u64),
}

/// What the rules find in a database in which all tables stand.
fn audit_tables<S: Alter, P: Watch>(
    alloc: Global,
    conn: &mut Connection<S>,
    watch: &mut P,
) -> Result<Finding, StatementFault>
    ensures found { ReadsWhere S.Store HasTables conn.old conn.new result
        (λ db found. HasTables db × IsByRules db found) }
    ensures watched { WasTold (P.told watch.old) (P.told watch.new) (AreToldOf result) }
{
    check_open(conn)?;
    obeys_schema(conn);
    match first_bad_row(alloc, conn, watch)? {
        Some(bad) => Ok(Finding::Unsound(bad)),
        None => Ok(Finding::Sound),
    }
}

/// What the database is; it stays as it is. `NoMemory` where memory is refused, `StoreFailed` where the store fails.
/// `watch` is told of each table before it is judged.
pub fn audit<S: Alter, P: Watch>(
    alloc: Global,
    conn: &mut Connection<S>,
    watch: &mut P,
) -> Result<Finding, StatementFault>
    ensures audited { ReadsAny S.Store conn.old conn.new result IsAudited }
    ensures watched { WasTold (P.told watch.old) (P.told watch.new) (AreToldOf result) }
{
    match recognise(alloc, conn)? {
        Recognition::Empty => Ok(Finding::Empty),
        Recognition::Foreign => Ok(Finding::Foreign),
        Recognition::Older(version) => Ok(Finding::Older(version)),
        Recognition::Newer(version) => Ok(Finding::Newer(version)),
        Recognition::Ours => audit_tables(alloc, conn, watch),
    }
}
