//! Which tables stand in a database.

ghost use Rattle.std.specs.Prelude.{◌↔◌, IsTrue, map, option_map};
ghost use Rattle.bike_schema.specs.Layouts.{every_table};
ghost use Rattle.bike_recognition.specs.Names.{table_named};
ghost use Rattle.bike_recognition.specs.Recognition.{AnyDatabase, ReadsAny, TableStands, IsFirstMissing};

use crate::rowids::are_apart;
use crate::schema::has_table;
use crate::table::TableName;
use bike_schema::StatementFault;
use sqlite::{Alter, Connection};
use std::alloc::Global;

/// The tables in the order of the schema.
pub const EVERY_TABLE: [TableName; 17] = [
    TableName::Meta,
    TableName::System,
    TableName::Plans,
    TableName::Segments,
    TableName::Types,
    TableName::Regions,
    TableName::Stations,
    TableName::Docks,
    TableName::Bikes,
    TableName::Trucks,
    TableName::Riders,
    TableName::Rentals,
    TableName::Orders,
    TableName::Entries,
    TableName::History,
    TableName::MoreNames,
    TableName::Books,
];

/// Finds out whether the connection is open, by a statement that names no table. One that was shut by a fault of the
/// store is `StoreFailed`. The database stays as it is.
pub fn check_open<S: Alter>(conn: &mut Connection<S>) -> Result<(), StatementFault>
    ensures { ReadsAny S.Store conn.old conn.new result (λ db _. AnyDatabase db) }
{
    conn.prepare("SELECT 1")?;
    Ok(())
}

/// Whether the table stands in the database: the schema has it under its name with exactly its columns and keys, no
/// foreign key refers to it, and its rows have rowids that are numbers and apart. The last can fail only in a store
/// that breaks its own rules: it is `StoreFailed`, as every other failure of the store is. Where memory is refused, it
/// is `NoMemory`. The database stays as it is.
pub fn table_stands<S: Alter>(
    alloc: Global,
    conn: &mut Connection<S>,
    table: TableName,
) -> Result<bool, StatementFault>
    ensures { ReadsAny S.Store conn.old conn.new result
        (λ db stands. IsTrue stands ↔ TableStands (table_named table) db) }
{
    check_open(conn)?;
    if !has_table(alloc, conn.schema(), table)? {
        return Ok(false);
    }
    if are_apart(conn, table.rowids_query())? {
        Ok(true)
    } else {
        Err(StatementFault::StoreFailed)
    }
}

/// The first of these tables that doesn't stand.
fn first_missing<S: Alter>(
    alloc: Global,
    conn: &mut Connection<S>,
    tables: &[TableName],
) -> Result<Option<TableName>, StatementFault>
    ensures { ReadsAny S.Store conn.old conn.new result
        (λ db missing. IsFirstMissing db (map table_named tables.now) (option_map table_named missing)) }
{
    match tables {
        [] => {
            check_open(conn)?;
            Ok(None)
        }
        [table, more @ ..] => {
            if table_stands(alloc, conn, *table)? {
                first_missing(alloc, conn, more)
            } else {
                Ok(Some(*table))
            }
        }
    }
}

/// The first table of the schema that doesn't stand in the database, and `None` where all do. It fails as
/// `table_stands` does.
pub fn missing_table<S: Alter>(
    alloc: Global,
    conn: &mut Connection<S>,
) -> Result<Option<TableName>, StatementFault>
    ensures { ReadsAny S.Store conn.old conn.new result
        (λ db missing. IsFirstMissing db every_table (option_map table_named missing)) }
{
    first_missing(alloc, conn, &EVERY_TABLE)
}
