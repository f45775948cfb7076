//! Which tables of an earlier version stand.

ghost use Rattle.std.specs.Prelude.{◌≡◌, ◌↔◌, IsTrue, IfOk, IfErr, map};
ghost use Rattle.std.specs.List.{list_all};
ghost use Rattle.bike_sql.specs.Layout.{table_of};
ghost use Rattle.bike_sql.specs.Stands.{Stands};
ghost use Rattle.bike_schema.specs.Tables.{is_unused};
ghost use Rattle.bike_schema.specs.declared.fault.StatementFault.TheVariants.{NoMemory};
ghost use Rattle.bike_recognition.specs.Names.{table_named};
ghost use Rattle.bike_recognition.specs.Recognition.{ReadsAny};
ghost use Rattle.bike_recognition.specs.Wanted.{HasWanted};
ghost use Rattle.bike_recognition.specs.EarlierVersions.Counts.{HasCounts};
ghost use Rattle.bike_recognition.specs.EarlierVersions.Earlier.{old_keys, old_layout, has_table, table_before};
ghost use Rattle.bike_recognition.specs.EarlierVersions.Earlier.{newest_names, newer_names};
ghost use Rattle.bike_recognition.specs.EarlierVersions.Earlier.{StandsAt, IsWhether, IsKeptAlone, IsAt};

use crate::earlier_versions::earlier::Earlier;
use crate::earlier_versions::kept::kept_lies;
use crate::earlier_versions::old_table::OldTable;
use crate::{EVERY_TABLE, TableName, are_apart, check_open, has_wanted, table_stands};
use bike_schema::{StatementFault, is_unused};
use sqlite::{Alter, Connection};
use sqlite_resolve::define_table;
use sqlite_schema::schema::{Schema, Table};
use std::alloc::Global;

/// The table, in tree 0. Only memory can be refused.
fn define_old(alloc: Global, table: OldTable) -> Result<Table, StatementFault>
    ensures table { IfOk result (λ x. x ≡ table_of (old_layout table) 0) }
    ensures memory { IfErr result (λ fault. fault ≡ NoMemory) }
{
    match define_table(alloc, table.definition().as_bytes()) {
        Ok(table) => Ok(table),
        Err(_) => Err(StatementFault::NoMemory),
    }
}

/// Whether the schema has the table, and no foreign key refers to it. Only memory can be refused.
fn has_old(alloc: Global, schema: &Schema, table: OldTable) -> Result<bool, StatementFault>
    ensures there { IfOk result (λ there. IsTrue there ↔ HasWanted schema.now (table_of (old_layout table) 0)) }
    ensures memory { IfErr result (λ fault. fault ≡ NoMemory) }
{
    let wanted = define_old(alloc, table)?;
    let is_there = has_wanted(schema, &wanted);
    // It was made for the comparison alone.
    drop(wanted);
    Ok(is_there)
}

/// Whether the table stands. It fails as `table_stands` does.
fn old_stands<S: Alter>(
    alloc: Global,
    conn: &mut Connection<S>,
    table: OldTable,
) -> Result<bool, StatementFault>
    ensures { ReadsAny S.Store conn.old conn.new result
        (λ db stands. IsTrue stands ↔ Stands db (old_keys table) (old_layout table)) }
{
    check_open(conn)?;
    if !has_old(alloc, conn.schema(), table)? {
        return Ok(false);
    }
    if are_apart(conn, table.rowids_query())? {
        Ok(true)
    } else {
        Err(StatementFault::StoreFailed)
    }
}

/// Whether the version has the table.
fn has_table(earlier: Earlier, table: TableName) -> bool
    ensures { result ≡ has_table earlier (table_named table) }
{
    match table {
        TableName::Regions => earlier != Earlier::First,
        TableName::MoreNames => earlier == Earlier::Third,
        TableName::History | TableName::Books => false,
        _ => true,
    }
}

/// The table that the version has in place of this one, if it is another.
fn table_before(earlier: Earlier, table: TableName) -> Option<OldTable>
    ensures { result ≡ table_before earlier (table_named table) }
{
    match table {
        TableName::Stations => Some(OldTable::Stations(earlier)),
        TableName::Riders => Some(OldTable::Riders),
        _ => None,
    }
}

/// Whether the table stands, if the version has it. It fails as `table_stands` does.
pub fn stands_at<S: Alter>(
    alloc: Global,
    conn: &mut Connection<S>,
    earlier: Earlier,
    table: TableName,
) -> Result<bool, StatementFault>
    ensures { ReadsAny S.Store conn.old conn.new result
        (λ db stands. IsTrue stands ↔ StandsAt earlier db (table_named table)) }
{
    if !has_table(earlier, table) {
        check_open(conn)?;
        return Ok(true);
    }
    match table_before(earlier, table) {
        Some(before) => old_stands(alloc, conn, before),
        None => table_stands(alloc, conn, table),
    }
}

/// Whether all these tables stand, as far as the version has them.
fn all_stand<S: Alter>(
    alloc: Global,
    conn: &mut Connection<S>,
    earlier: Earlier,
    tables: &[TableName],
) -> Result<bool, StatementFault>
    ensures { ReadsAny S.Store conn.old conn.new result
        (λ db stand. IsWhether earlier db (map table_named tables.now) stand) }
{
    match tables {
        [] => {
            check_open(conn)?;
            Ok(true)
        }
        [table, more @ ..] => {
            if stands_at(alloc, conn, earlier, *table)? {
                all_stand(alloc, conn, earlier, more)
            } else {
                Ok(false)
            }
        }
    }
}

/// Whether no name is used that the newest version alone has.
fn are_newest_free(schema: &Schema) -> bool
    ensures { result ≡ list_all (is_unused schema.now) newest_names }
{
    is_unused(schema, b"history")
        && is_unused(schema, b"stations_4")
        && is_unused(schema, b"riders_4")
        && is_unused(schema, b"books")
}

/// Whether no name of a later version is used.
fn are_newer_free(schema: &Schema, earlier: Earlier) -> bool
    ensures { result ≡ list_all (is_unused schema.now) (newer_names earlier) }
{
    match earlier {
        Earlier::First => {
            is_unused(schema, b"regions")
                && is_unused(schema, b"stations_3")
                && is_unused(schema, b"more_names")
                && are_newest_free(schema)
        }
        Earlier::Second => {
            is_unused(schema, b"stations_3")
                && is_unused(schema, b"more_names")
                && are_newest_free(schema)
        }
        Earlier::Third => are_newest_free(schema),
    }
}

/// Whether `kept` lies in the database, and the names of later versions are free. It fails as `table_stands` does.
fn is_kept_alone<S: Alter>(
    alloc: Global,
    conn: &mut Connection<S>,
    earlier: Earlier,
) -> Result<bool, StatementFault>
    ensures { ReadsAny S.Store conn.old conn.new result
        (λ db alone. IsTrue alone ↔ IsKeptAlone earlier db) }
{
    if kept_lies(alloc, conn)? {
        Ok(are_newer_free(conn.schema(), earlier))
    } else {
        Ok(false)
    }
}

/// Whether this is so, and `counts` stands. It fails as `table_stands` does.
fn are_others_there<S: Alter>(
    alloc: Global,
    conn: &mut Connection<S>,
    earlier: Earlier,
) -> Result<bool, StatementFault>
    ensures { ReadsAny S.Store conn.old conn.new result
        (λ db there. IsTrue there ↔ (HasCounts db × IsKeptAlone earlier db)) }
{
    if old_stands(alloc, conn, OldTable::Counts)? {
        is_kept_alone(alloc, conn, earlier)
    } else {
        Ok(false)
    }
}

/// Whether the database is of this version: its tables stand, `counts` among them, `kept` lies there, and the names of
/// later versions are free. It fails as `table_stands` does.
pub fn is_at<S: Alter>(
    alloc: Global,
    conn: &mut Connection<S>,
    earlier: Earlier,
) -> Result<bool, StatementFault>
    ensures { ReadsAny S.Store conn.old conn.new result (λ db at. IsTrue at ↔ IsAt earlier db) }
{
    if all_stand(alloc, conn, earlier, &EVERY_TABLE)? {
        are_others_there(alloc, conn, earlier)
    } else {
        Ok(false)
    }
}
