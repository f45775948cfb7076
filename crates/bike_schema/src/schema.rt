//! The schema as a connection shows it.

ghost use Rattle.std.specs.Prelude.{◌≡◌, IsTrue, ◌↔◌, map};
ghost use Rattle.std.specs.List.{list_all};
ghost use Rattle.sqlite.specs.Held.{state};
ghost use Rattle.bike_schema.specs.Indexes.{is_free, HasRoom};
ghost use Rattle.bike_schema.specs.Tables.{names_parent, is_parent, is_unused, HasNone};

use bike_book::table;
use sqlite::{Alter, Connection};
use sqlite_schema::names::same_name;
use sqlite_schema::schema::{Schema, Table};

/// The names of the tables.
const TABLE_NAMES: [&str; 17] = [
    table!(name meta),
    table!(name system),
    table!(name plans),
    table!(name segments),
    table!(name types),
    table!(name regions),
    table!(name stations),
    table!(name docks),
    table!(name bikes),
    table!(name trucks),
    table!(name riders),
    table!(name rentals),
    table!(name orders),
    table!(name entries),
    table!(name history),
    table!(name more_names),
    table!(name books),
];

/// The names of the tables that only an earlier schema has.
const OTHER_NAMES: [&str; 6] = [
    "stations",
    "stations_2",
    "stations_3",
    "kept",
    "counts",
    "riders",
];

/// The names of the indexes beside those of the keys.
const INDEX_NAMES: [&str; 6] = [
    "bikes_by_dock",
    "bikes_by_truck",
    "rentals_by_rider",
    "more_names_by_language",
    "more_names_by_thing",
    "history_by_key",
];

/// Whether some foreign key of the table names this name.
fn names_parent(name: &[u8], table: &Table) -> bool
    ensures { result ≡ names_parent name.now table.now }
{
    table
        .references
        .as_slice()
        .iter()
        .any(|reference| same_name(name, reference.parent.as_slice()))
}

/// Whether some foreign key names a table of this name, whether there is one or not.
fn is_parent(schema: &Schema, name: &[u8]) -> bool
    ensures { result ≡ is_parent schema.now name.now }
{
    let tables = schema.tables.as_slice();
    tables.iter().any(|table| names_parent(name, table))
}

/// Whether no table has the name, and no foreign key names it.
pub fn is_unused(schema: &Schema, name: &[u8]) -> bool
    ensures { result ≡ is_unused schema.now name.now }
{
    schema.table_named(name).is_none() && !is_parent(schema, name)
}

/// Whether each of these names is that of no table, and named by no foreign key.
fn are_unused(schema: &Schema, names: &[&str]) -> bool
    ensures { result ≡ list_all (is_unused schema.now) (map (λ name. name.now) names.now) }
{
    names.iter().all(|name| is_unused(schema, name.as_bytes()))
}

/// Whether the database has none of the product's tables, of this schema or an earlier one, and no foreign key that
/// names one of them.
pub fn has_none<S: Alter>(conn: &Connection<S>) -> bool
    ensures { IsTrue result ↔ HasNone (state S.Store conn.now).now.schema }
{
    let schema = conn.schema();
    are_unused(schema, &TABLE_NAMES) && are_unused(schema, &OTHER_NAMES)
}

/// Whether no table, index or view has the name, nor anything that the engine keeps as it is, as a trigger.
fn is_free(schema: &Schema, name: &[u8]) -> bool
    ensures { result ≡ is_free schema.now name.now }
{
    schema.table_named(name).is_none()
        && schema.index_named(name).is_none()
        && schema.view_named(name).is_none()
}

/// Whether all of these names are free.
fn are_free(schema: &Schema, names: &[&str]) -> bool
    ensures { result ≡ list_all (is_free schema.now) (map (λ name. name.now) names.now) }
{
    names.iter().all(|name| is_free(schema, name.as_bytes()))
}

/// Whether the database has room for the tables: nothing in it has the name of one of them, or of one of the indexes
/// beside those of their keys. Where it has not, `create_tables` fails.
pub fn has_room<S: Alter>(conn: &Connection<S>) -> bool
    ensures { IsTrue result ↔ HasRoom (state S.Store conn.now).now.schema }
{
    let schema = conn.schema();
    are_free(schema, &TABLE_NAMES) && are_free(schema, &INDEX_NAMES)
}
