//! The table `kept` of every earlier version.

ghost use Rattle.std.specs.Prelude.{◌≡◌, ◌↔◌, IsTrue, IfOk, IfErr};
ghost use Rattle.bike_sql.specs.Layout.{table_of};
ghost use Rattle.bike_schema.specs.declared.fault.StatementFault.TheVariants.{NoMemory};
ghost use Rattle.bike_recognition.specs.Recognition.{ReadsAny};
ghost use Rattle.bike_recognition.specs.Wanted.{Defines, HasWanted, Lies};
ghost use Rattle.bike_recognition.specs.EarlierVersions.Kept.{kept_layout, KeptLies};

use crate::{are_apart, check_open, has_wanted};
use bike_schema::StatementFault;
use sqlite::{Alter, Connection};
use sqlite_resolve::define_table;
use sqlite_schema::schema::{Schema, Table};
use std::alloc::Global;

/// The statement that made it, with a PRIMARY KEY or none.
fn definition(keyed: bool) -> &'static str
    ensures { Defines result.now (kept_layout keyed) }
{
    if keyed {
        "CREATE TABLE kept (caller TEXT NOT NULL, req_key TEXT NOT NULL, command TEXT NOT NULL, \
         reply TEXT NOT NULL, PRIMARY KEY (caller, req_key)) STRICT"
    } else {
        "CREATE TABLE kept (caller TEXT NOT NULL, req_key TEXT NOT NULL, command TEXT NOT NULL, \
         reply TEXT NOT NULL) STRICT"
    }
}

/// The table, in tree 0. Only memory can be refused.
fn define_kept(alloc: Global, keyed: bool) -> Result<Table, StatementFault>
    ensures table { IfOk result (λ table. table ≡ table_of (kept_layout keyed) 0) }
    ensures memory { IfErr result (λ fault. fault ≡ NoMemory) }
{
    match define_table(alloc, definition(keyed).as_bytes()) {
        Ok(table) => Ok(table),
        Err(_) => Err(StatementFault::NoMemory),
    }
}

/// Whether the schema has the table, and no foreign key refers to it. Only memory can be refused.
fn has_kept(alloc: Global, schema: &Schema, keyed: bool) -> Result<bool, StatementFault>
    ensures there { IfOk result (λ there. IsTrue there ↔ HasWanted schema.now (table_of (kept_layout keyed) 0)) }
    ensures memory { IfErr result (λ fault. fault ≡ NoMemory) }
{
    let wanted = define_kept(alloc, keyed)?;
    let is_there = has_wanted(schema, &wanted);
    // It was made for the comparison alone.
    drop(wanted);
    Ok(is_there)
}

/// Whether the table lies in the database, with a PRIMARY KEY or none. It fails as `table_stands` does.
fn lies_with<S: Alter>(
    alloc: Global,
    conn: &mut Connection<S>,
    keyed: bool,
) -> Result<bool, StatementFault>
    ensures { ReadsAny S.Store conn.old conn.new result (λ db lies. IsTrue lies ↔ Lies db (kept_layout keyed)) }
{
    check_open(conn)?;
    if !has_kept(alloc, conn.schema(), keyed)? {
        return Ok(false);
    }
    if are_apart(conn, "SELECT rowid FROM kept ORDER BY rowid")? {
        Ok(true)
    } else {
        Err(StatementFault::StoreFailed)
    }
}

/// Whether `kept` lies in the database, in either of its layouts: the schema has it under its name with exactly its
/// columns, no foreign key refers to it, and its rows have rowids that are numbers and apart. It fails as
/// `table_stands` does.
pub fn kept_lies<S: Alter>(alloc: Global, conn: &mut Connection<S>) -> Result<bool, StatementFault>
    ensures { ReadsAny S.Store conn.old conn.new result (λ db lies. IsTrue lies ↔ KeptLies db) }
{
    if lies_with(alloc, conn, true)? {
        return Ok(true);
    }
    lies_with(alloc, conn, false)
}
