//! A station's bicycles by type, whose text stands in its row.

ghost use Rattle.std.specs.Prelude.{◌≡◌, IfOk};
ghost use Rattle.sqlite.specs.Order.{column};
ghost use Rattle.bike_fleet_reads.specs.Holds.{AreTypesIn};

use bike_book::{CountedType, counts_by_type, read_by_type};
use bike_schema::{StatementFault, str_at};
use sqlite::Row;
use std::alloc::Global;

/// The column as a station's bicycles by type. `NoMemory` where they find no room; a column that is no such text is
/// `StoreFailed`.
pub fn by_type_at(alloc: Global, row: &Row, at: usize) -> Result<Vec<CountedType>, StatementFault>
    ensures { IfOk result (λ list. AreTypesIn (column row.now at) list.items) }
{
    counts_by_type();
    let text = str_at(row, at)?;
    match read_by_type(alloc, text)? {
        Some(by_type) => Ok(by_type),
        None => Err(StatementFault::StoreFailed),
    }
}
