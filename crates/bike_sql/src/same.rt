//! Whether two tables of a schema are the same.

ghost use Rattle.std.specs.Prelude.{◌≡◌, ◌↔◌, IsTrue, []};
ghost use Rattle.sqlite_value.specs.declared.value.Value.TheVariants.{Null};
ghost use Rattle.bike_sql.specs.Found.{HasNoDefaults, IsPlainTable, with_tree};

use sqlite_items::Items;
use sqlite_schema::code::Terms;
use sqlite_schema::schema::{Column, Stamps, Table};
use sqlite_value::keys::Order;
use sqlite_value::value::{Bytes, Value};

fn same_name(a: &Bytes, b: &Bytes) -> bool
    ensures { IsTrue result ↔ (a.now ≡ b.now) }
{
    a.as_slice() == b.as_slice()
}

fn same_places(a: &Items<usize>, b: &Items<usize>) -> bool
    ensures { IsTrue result ↔ (a.now ≡ b.now) }
{
    a.as_slice() == b.as_slice()
}

fn same_keys(a: &[Items<usize>], b: &[Items<usize>]) -> bool
    ensures { IsTrue result ↔ (a.now ≡ b.now) }
{
    match (a, b) {
        ([], []) => true,
        ([key, keys @ ..], [other, others @ ..]) => same_places(key, other)
            && same_keys(keys, others),
        _ => false,
    }
}

fn same_orders(a: &[Order], b: &[Order]) -> bool
    ensures { IsTrue result ↔ (a.now ≡ b.now) }
{
    match (a, b) {
        ([], []) => true,
        ([order, orders @ ..], [other, others @ ..]) => {
            order.digits == other.digits && same_orders(orders, others)
        }
        _ => false,
    }
}

fn same_column(a: &Column, b: &Column) -> bool
    ensures { IsTrue result ↔ ((a.now ≡ b.now) × (b.now.default ≡ Null)) }
{
    same_name(&a.name, &b.name)
        && a.kind == b.kind
        && a.is_strict == b.is_strict
        && a.not_null == b.not_null
        && a.collation == b.collation
        && matches!(a.default, Value::Null)
        && matches!(b.default, Value::Null)
}

fn same_columns(a: &[Column], b: &[Column]) -> bool
    ensures { IsTrue result ↔ ((a.now ≡ b.now) × HasNoDefaults b.now) }
{
    match (a, b) {
        ([], []) => true,
        ([column, columns @ ..], [other, others @ ..]) => {
            same_column(column, other) && same_columns(columns, others)
        }
        _ => false,
    }
}

fn same_rowid(a: Option<usize>, b: Option<usize>) -> bool
    ensures { IsTrue result ↔ (a ≡ b) }
{
    match (a, b) {
        (None, None) => true,
        (Some(column), Some(other)) => column == other,
        _ => false,
    }
}

fn has_no_terms(terms: &Terms) -> bool
    ensures { IsTrue result ↔ (terms.now ≡ []) }
{
    terms.roots.is_empty()
}

fn has_no_stamps(stamps: &Stamps) -> bool
    ensures { IsTrue result ↔ (stamps.now ≡ record { places = []; terms = []; formats = [] }) }
{
    stamps.places.is_empty() && stamps.formats.is_empty() && has_no_terms(&stamps.terms)
}

/// No CHECK, REFERENCES or DEFAULT that is computed.
fn is_bare(table: &Table) -> bool
    ensures { IsTrue result ↔ ((table.now.checks ≡ []) × (table.now.references ≡ []) × (table.now.computed ≡ []) ×
        (table.now.stamps ≡ record { places = []; terms = []; formats = [] })) }
{
    has_no_terms(&table.checks)
        && table.references.is_empty()
        && table.computed.is_empty()
        && has_no_stamps(&table.stamps)
}

/// Whether a table is the wanted one in all but its tree, and this is a plain one. A wanted table that is not plain is
/// none.
pub(crate) fn is_wanted(table: &Table, wanted: &Table) -> bool
    ensures { IsTrue result ↔ ((table.now ≡ with_tree wanted.now table.now.tree) × IsPlainTable wanted.now) }
{
    same_name(&table.name, &wanted.name)
        && same_columns(table.columns.as_slice(), wanted.columns.as_slice())
        && same_rowid(table.key, wanted.key)
        && same_places(&table.primary, &wanted.primary)
        && same_keys(table.uniques.as_slice(), wanted.uniques.as_slice())
        && same_orders(table.orders.as_slice(), wanted.orders.as_slice())
        && table.is_counted == wanted.is_counted
        && is_bare(table)
        && is_bare(wanted)
}
