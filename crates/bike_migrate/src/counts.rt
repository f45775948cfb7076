//! The rows of the old table `counts`, station by station.

ghost use Rattle.std.specs.Prelude.{◌≡◌, [], ◌∷◌, ◌++◌, IfOk, OnOk, option_map, string_bytes};
ghost use Rattle.sqlite_value.specs.declared.value.Value.TheVariants.{Text};
ghost use Rattle.sqlite_value.specs.Order.{column};
ghost use Rattle.bike_sql.specs.Calls.{ReadsWhere};
ghost use Rattle.bike_sql.specs.View.{rows_where};
ghost use Rattle.bike_book.specs.ByType.{are_none};
ghost use Rattle.bike_recognition.specs.EarlierVersions.Counts.{HasCounts, old_counts, count_in, counts_read};
ghost use Rattle.bike_recognition.specs.EarlierVersions.Counts.{old_count_read, counted_first, old_types, types_text};

use crate::stations::value_at;
use bike_book::{CountedType, TypeCounts, by_type_text};
use bike_schema::{StatementFault, ident_at};
use sqlite::types::ValueRef;
use sqlite::{Alter, Connection, Row};
use std::alloc::Global;

/// The rows of a station, in the order of their keys. The database stays as it is.
pub(crate) fn read_counts<S: Alter>(
    conn: &mut Connection<S>,
    station: &[u8],
) -> Result<Vec<Row>, StatementFault>
    ensures { ReadsWhere S.Store HasCounts conn.old conn.new result
        (λ db rows. rows.items ≡ rows_where (0 ∷ []) (Text station.now ∷ []) (old_counts db)) }
{
    let rows = conn.query_all(
        "SELECT * FROM counts WHERE station_id = ?1 ORDER BY station_id, type_id",
        &[ValueRef::Text(station)],
    )?;
    Ok(rows)
}

/// The count in a column.
fn count_at(row: &Row, at: usize) -> Option<u32>
    ensures { result ≡ count_in (column row.now at) }
{
    match value_at(row, at) {
        ValueRef::Int(count) => u32::try_from(count).ok(),
        _ => None,
    }
}

/// The counts in the row.
fn counts_in(row: &Row) -> Option<TypeCounts>
    ensures { result ≡ counts_read row.now }
{
    let available = count_at(row, 2)?;
    let disabled = count_at(row, 3)?;
    Some(TypeCounts {
        available,
        disabled,
    })
}

/// The type with its counts that the row spells, if it spells one. Only memory can be refused.
fn counted_type(alloc: Global, row: &Row) -> Result<Option<CountedType>, StatementFault>
    ensures { IfOk result (λ counted. counted ≡ old_count_read row.now) }
{
    let Some(counts) = counts_in(row) else {
        return Ok(None);
    };
    match ident_at(alloc, row, 1) {
        Ok(type_id) => Ok(Some(CountedType { type_id, counts })),
        Err(StatementFault::StoreFailed) => Ok(None),
        Err(fault) => Err(fault),
    }
}

/// Whether there are none of it.
fn are_none(counts: TypeCounts) -> bool
    ensures { result ≡ are_none counts }
{
    counts.available == 0 && counts.disabled == 0
}

/// Puts the type behind the others, if there are any of it.
fn put_type(types: &mut Vec<CountedType>, counted: CountedType) -> Result<(), StatementFault>
    ensures { OnOk result (types.new.items ≡ types.old.items ++ counted_first counted []) }
{
    if are_none(counted.counts) {
        return Ok(());
    }
    match types.push(counted) {
        Ok(()) => Ok(()),
        Err(_) => Err(StatementFault::NoMemory),
    }
}

/// The types that the rows spell, without those of which there are none, or nothing where a row spells none.
fn old_types(alloc: Global, rows: &[Row]) -> Result<Option<Vec<CountedType>>, StatementFault>
    ensures { IfOk result (λ types. option_map (λ list. list.items) types ≡ old_types rows.now) }
{
    let mut types = Vec::new(alloc);
    for row in rows {
        match counted_type(alloc, row)? {
            Some(counted) => put_type(&mut types, counted)?,
            None => return Ok(None),
        }
    }
    Ok(Some(types))
}

/// The text of the bicycles by type of which the rows tell, and `?` where one of them spells no counts.
pub(crate) fn old_text(alloc: Global, rows: &[Row]) -> Result<String, StatementFault>
    ensures { IfOk result (λ text. string_bytes text ≡ types_text (old_types rows.now)) }
{
    match old_types(alloc, rows)? {
        Some(types) => Ok(by_type_text(alloc, types.as_slice())?),
        None => Ok(String::from_str(alloc, "?")?),
    }
}
