//! The place of a wanted table in the schema of an opened database.

ghost use Rattle.std.specs.Prelude.{◌≡◌, ◌↔◌, ◌==◌, ℕ, find, Some, option_copied};
ghost use Rattle.bike_sql.specs.Found.{IsPlainTable, StandsAt};

use crate::same::is_wanted;
use sqlite_schema::schema::{Schema, Table};

/// Trees from this number on are those of tables that a statement computes.
const COMPUTED: u32 = 1 << 31;

fn table_with_tree(tables: &[Table], tree: u32) -> Option<&Table>
    ensures { option_copied result ≡ find (λ t. t.tree == tree) tables.now }
{
    tables.iter().find(|table| table.tree == tree)
}

/// Where the wanted table stands in the schema: the first table of its name, if that is the wanted one in all but its
/// tree, and no table before it has that tree. The wanted table has columns and keys alone; one with a DEFAULT, a CHECK
/// or REFERENCES is never found. Its own tree is not looked at.
pub fn place_of_table(schema: &Schema, wanted: &Table) -> Option<usize>
    ensures { (at : ℕ) → (result ≡ Some at) ↔ (StandsAt schema.now wanted.now at × IsPlainTable wanted.now) }
{
    let at = schema.table_named(wanted.name.as_slice())?;
    let table = schema.tables.get(at)?;
    let first = table_with_tree(schema.tables.as_slice(), table.tree)?;
    if table.tree < COMPUTED && is_wanted(table, wanted) && is_wanted(first, wanted) {
        Some(at)
    } else {
        None
    }
}
