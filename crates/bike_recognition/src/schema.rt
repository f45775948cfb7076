//! Whether a schema has a table, and whether foreign keys refer to it.

ghost use Rattle.std.specs.Prelude.{◌≡◌, ◌↔◌, IfErr, IfOk, IsTrue};
ghost use Rattle.std.specs.List.{list_any};
ghost use Rattle.bike_sql.specs.Layout.{table_of};
ghost use Rattle.bike_sql.specs.Stands.{refers_to, is_referred_to};
ghost use Rattle.bike_schema.specs.Layouts.{layout_of};
ghost use Rattle.bike_schema.specs.declared.fault.StatementFault.TheVariants.{NoMemory};
ghost use Rattle.bike_recognition.specs.Names.{table_named};
ghost use Rattle.bike_recognition.specs.Wanted.{HasWanted};

use crate::table::TableName;
use bike_schema::StatementFault;
use bike_sql::find::place_of_table;
use sqlite_schema::schema::{Reference, Schema, Table};
use std::alloc::Global;

/// Whether the foreign key refers to the table in this tree.
fn refers_to(tables: &[Table], tree: u32, reference: &Reference) -> bool
    ensures { result ≡ refers_to tables.now tree reference.now }
{
    match tables
        .iter()
        .find(|table| table.is_named(reference.parent.as_slice()))
    {
        Some(parent) => parent.tree == tree,
        None => false,
    }
}

/// Whether a foreign key of the table refers to the one in this tree.
fn table_refers_to(tables: &[Table], tree: u32, table: &Table) -> bool
    ensures { result ≡ list_any (refers_to tables.now tree) table.now.references }
{
    table
        .references
        .as_slice()
        .iter()
        .any(|reference| refers_to(tables, tree, reference))
}

/// Whether a foreign key of the schema refers to the table in this tree.
fn is_referred_to(schema: &Schema, tree: u32) -> bool
    ensures { result ≡ is_referred_to schema.now tree }
{
    let tables = schema.tables.as_slice();
    tables
        .iter()
        .any(|table| table_refers_to(tables, tree, table))
}

/// Whether the schema has the wanted table, and no foreign key refers to it. The number of its tree may be another.
pub fn has_wanted(schema: &Schema, wanted: &Table) -> bool
    ensures { IsTrue result ↔ HasWanted schema.now wanted.now }
{
    match place_of_table(schema, wanted) {
        Some(at) => match schema.tables.get(at) {
            Some(table) => !is_referred_to(schema, table.tree),
            None => false,
        },
        None => false,
    }
}

/// Whether the schema has the table as the product makes it, and no foreign key refers to it. Only memory can be
/// refused.
pub(crate) fn has_table(
    alloc: Global,
    schema: &Schema,
    table: TableName,
) -> Result<bool, StatementFault>
    ensures there { IfOk result
        (λ there. IsTrue there ↔ HasWanted schema.now (table_of (layout_of (table_named table)) 0)) }
    ensures memory { IfErr result (λ fault. fault ≡ NoMemory) }
{
    let wanted = table.defined(alloc)?;
    let is_there = has_wanted(schema, &wanted);
    // It was made for the comparison alone.
    drop(wanted);
    Ok(is_there)
}
