//! Numbers that the database answers: counts of rows, and the number of a last row.

ghost use Rattle.std.specs.Prelude.{◌≡◌, IfOk, length, nat_le};
ghost use Rattle.sqlite_value.specs.Order.{column};
ghost use Rattle.bike_book.specs.Rows.{number_value};
ghost use Rattle.bike_book.specs.Found.{IsLast};
ghost use Rattle.bike_office_reads.specs.ReadRows.{IsCountOf};

use bike_schema::StatementFault;
use sqlite::Row;

/// Whether a count is at least so many.
pub(crate) fn reaches(row: &Row, most: u32) -> Result<bool, StatementFault>
    ensures { IfOk result (λ full. (n : _) → IsCountOf n row.now → full ≡ nat_le most n) }
{
    let found: u64 = row.get(0)?;
    Ok(found >= u64::from(most))
}

/// How many rows there are. `StoreFailed` where that is no `u32`.
pub(crate) fn count_rows(rows: &[Row]) -> Result<u32, StatementFault>
    ensures { IfOk result (λ x. x ≡ length rows.now) }
{
    match u32::try_from(rows.len()) {
        Ok(number) => Ok(number),
        Err(_) => Err(StatementFault::StoreFailed),
    }
}

/// The number in a column.
pub(crate) fn number_in(row: &Row, at: usize) -> Result<u32, StatementFault>
    ensures { IfOk result (λ x. (n : _) → column row.now at ≡ number_value n → x ≡ n) }
{
    Ok(row.get(at)?)
}

/// The number with which the last row begins, and 0 where there is none.
pub(crate) fn last_number(row: &Option<Row>) -> Result<u32, StatementFault>
    ensures { IfOk result (λ x. (n : _) → IsLast 0 n row.now → x ≡ n) }
{
    match row {
        Some(row) => number_in(row, 0),
        None => Ok(0),
    }
}
