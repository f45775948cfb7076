//! Columns of a row, the answers of counts, and the number of a last row.

ghost use Rattle.std.specs.Prelude.{◌≡◌, ℕ, [], ◌∷◌, IfOk, Some, nat_le};
ghost use Rattle.sqlite.specs.Order.{column};
ghost use Rattle.sqlite_sql.specs.Aggregate.{count};
ghost use Rattle.bike_book.specs.Rows.{number_value};
ghost use Rattle.bike_book.specs.Found.{IsLast};

use bike_fields::DockTotal;
use bike_fixed::Within;
use bike_schema::{StatementFault, number_at};
use sqlite::Row;

/// The column as a number that fits.
pub(crate) fn whole_at(row: &Row, at: usize) -> Result<u32, StatementFault>
    ensures { IfOk result (λ n. column row.now at ≡ number_value n) }
{
    let number: Within<0, 4_294_967_295> = number_at(row, at)?;
    Ok(number.get())
}

/// The column as a number of docks, or of bicycles in docks: at most as many as a station has docks.
pub fn dock_total_at(row: &Row, at: usize) -> Result<DockTotal, StatementFault>
    ensures { IfOk result (λ n. column row.now at ≡ number_value n) }
{
    number_at(row, at)
}

/// No dock, or no bicycle.
pub fn no_docks() -> DockTotal
    ensures { result ≡ 0 }
{
    match DockTotal::new(0) {
        Some(none) => none,
        None => unreachable!(),
    }
}

/// The number with which the last row begins, 0 where there is none.
pub(crate) fn last_of(row: &Option<Row>) -> Result<u32, StatementFault>
    ensures { IfOk result (λ n. (last : ℕ) → IsLast 0 last row.now → n ≡ last) }
{
    match row {
        Some(row) => whole_at(row, 0),
        None => Ok(0),
    }
}

/// The count that the one row of its answer tells.
pub(crate) fn count_of(answer: &Option<Row>) -> Result<u32, StatementFault>
    ensures { IfOk result (λ n. (rows : ℕ) → answer.now ≡ Some (count rows ∷ []) → n ≡ rows) }
{
    match answer {
        Some(row) => whole_at(row, 0),
        None => Err(StatementFault::StoreFailed),
    }
}

/// Whether the count that the one row of its answer tells is as many as there may be.
pub(crate) fn is_full(answer: &Option<Row>, most: u32) -> Result<bool, StatementFault>
    ensures { IfOk result (λ full. (rows : ℕ) → answer.now ≡ Some (count rows ∷ []) → full ≡ nat_le most rows) }
{
    Ok(count_of(answer)? >= most)
}
