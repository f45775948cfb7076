//! UNIQUE indexes that somebody added to a table of the product's.

ghost use Rattle.std.specs.Prelude.{◌≡◌};
ghost use Rattle.std.specs.List.{list_any};
ghost use Rattle.sqlite_schema.specs.Names.{same_name};
ghost use Rattle.bike_schema.specs.Layouts.{name_of};
ghost use Rattle.bike_recognition.specs.Names.{table_named};
ghost use Rattle.bike_recognition.specs.Added.{is_over, is_of_key, is_added, has_added, is_product_name, is_hindered};
ghost use Rattle.bike_recognition.specs.Added.{has_added_unique};

use crate::stands::EVERY_TABLE;
use crate::table::TableName;
use sqlite_items::Items;
use sqlite_schema::names::same_name;
use sqlite_schema::schema::{Index, Schema, Table};

/// Whether the index is over these columns, in their order.
fn is_over(index: &Index, key: &Items<usize>) -> bool
    ensures { result ≡ is_over index.now key.now }
{
    index.columns.as_slice() == key.as_slice()
}

/// Whether the index is over the columns of a key of the table.
fn is_over_key(table: &Table, index: &Index) -> bool
    ensures { result ≡ list_any (is_over index.now) table.now.uniques }
{
    table
        .uniques
        .as_slice()
        .iter()
        .any(|key| is_over(index, key))
}

/// Whether the index is that of a key of the table, or as good: it has the columns, each ascending by its bytes.
fn is_of_key(table: &Table, index: &Index) -> bool
    ensures { result ≡ is_of_key table.now index.now }
{
    index.order.digits == 0 && is_over_key(table, index)
}

/// Whether the index is of the table, and UNIQUE beside its keys.
fn is_added(table: &Table, index: &Index) -> bool
    ensures { result ≡ is_added table.now index.now }
{
    index.table == table.tree && index.is_unique && !is_of_key(table, index)
}

/// Whether some index of the schema is of the table, and UNIQUE beside its keys.
fn has_added(schema: &Schema, table: &Table) -> bool
    ensures { result ≡ has_added schema.now table.now }
{
    schema
        .indexes
        .as_slice()
        .iter()
        .any(|index| is_added(table, index))
}

/// Whether one of the tables has the name.
fn is_named_in(tables: &[TableName], name: &[u8]) -> bool
    ensures { result ≡ list_any (λ t. same_name name.now (name_of (table_named t))) tables.now }
{
    tables
        .iter()
        .any(|table| same_name(name, table.name().as_bytes()))
}

/// Whether the name is that of a table of the newest version.
fn is_product_name(name: &[u8]) -> bool
    ensures { result ≡ is_product_name name.now }
{
    is_named_in(&EVERY_TABLE, name)
}

/// Whether the table is the product's, as its name tells, and somebody added a UNIQUE index to it.
fn is_hindered(schema: &Schema, table: &Table) -> bool
    ensures { result ≡ is_hindered schema.now table.now }
{
    is_product_name(table.name.as_slice()) && has_added(schema, table)
}

/// Whether somebody added a UNIQUE index to a table of the product's. On such an index a request can fail that breaks
/// no rule. The indexes of the keys, which the engine makes with a table, are none.
pub fn has_added_unique(schema: &Schema) -> bool
    ensures { result ≡ has_added_unique schema.now }
{
    schema
        .tables
        .as_slice()
        .iter()
        .any(|table| is_hindered(schema, table))
}
