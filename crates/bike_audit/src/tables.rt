//! The verdict on the tables, one after the other.

ghost use Rattle.std.specs.Prelude.{map, option_map};
ghost use Rattle.bike_sql.specs.Calls.{ReadsWhere};
ghost use Rattle.bike_schema.specs.Tables.{IsOurs};
ghost use Rattle.bike_recognition.specs.Names.{table_named};
ghost use Rattle.bike_audit.specs.Audit.{IsFoundIn, IsVerdictOn, row_name};
ghost use Rattle.bike_audit.specs.Watching.{WasTold, AreTold};
ghost use Rattle.bike_recognition.specs.declared.stands.TheConstants.{EVERY_TABLE};

use crate::rules::judge_table;
use crate::watch::Watch;
use bike_judges::BadKey;
use bike_recognition::{EVERY_TABLE, TableName, check_open};
use bike_schema::StatementFault;
use sqlite::{Alter, Connection};
use std::alloc::Global;

/// A row that is not an operator's, or one that is missing.
#[derive(Debug, Drop)]
pub struct BadRow {
    pub table: TableName,
    pub key: BadKey,
}

/// The first bad row of these tables, in their order.
fn first_bad_of<S: Alter, P: Watch>(
    alloc: Global,
    conn: &mut Connection<S>,
    tables: &[TableName],
    watch: &mut P,
) -> Result<Option<BadRow>, StatementFault>
    ensures found { ReadsWhere S.Store IsOurs conn.old conn.new result
        (λ db bad. IsFoundIn (map table_named tables.now) db (option_map row_name bad)) }
    ensures watched { WasTold (P.told watch.old) (P.told watch.new) (AreTold tables.now result) }
{
    match tables {
        [] => {
            check_open(conn)?;
            Ok(None)
        }
        [table, more @ ..] => {
            watch.reached(*table);
            match judge_table(alloc, conn, *table)? {
                Some(key) => Ok(Some(BadRow { table: *table, key })),
                None => first_bad_of(alloc, conn, more, watch),
            }
        }
    }
}

/// The first row of the tables that is not an operator's, by the order of the tables and of their keys, and `None`
/// where the tables stand for an operator. `watch` is told of each table before it is judged.
pub fn first_bad_row<S: Alter, P: Watch>(
    alloc: Global,
    conn: &mut Connection<S>,
    watch: &mut P,
) -> Result<Option<BadRow>, StatementFault>
    ensures verdict { ReadsWhere S.Store IsOurs conn.old conn.new result IsVerdictOn }
    ensures watched { WasTold (P.told watch.old) (P.told watch.new) (AreTold EVERY_TABLE result) }
{
    first_bad_of(alloc, conn, &EVERY_TABLE, watch)
}
