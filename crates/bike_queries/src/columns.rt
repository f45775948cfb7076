//! Columns of a row as values of the product. A column that holds anything else is `StoreFailed`.

ghost use Rattle.std.specs.Prelude.{◌≡◌, IfOk};
ghost use Rattle.sqlite_value.specs.declared.value.Value.TheVariants.{Int};
ghost use Rattle.sqlite_value.specs.Order.{column};
ghost use Rattle.bike_book.specs.Rows.{number_value};

use bike_fixed::{Micro, Within};
use bike_schema::{StatementFault, number_at};
use sqlite::Row;
use sqlite::types::ValueRef;

/// The column as a number that fits.
pub(crate) fn whole_at(row: &Row, at: usize) -> Result<u32, StatementFault>
    ensures { IfOk result (λ n. column row.now at ≡ number_value n) }
{
    let number: Within<0, 4_294_967_295> = number_at(row, at)?;
    Ok(number.get())
}

/// The microdegrees in the column.
pub(crate) fn micro_at(row: &Row, at: usize) -> Result<Micro, StatementFault>
    ensures { IfOk result (λ x. (microdegrees : _) → column row.now at ≡ Int microdegrees → x ≡ microdegrees) }
{
    let Ok(ValueRef::Int(whole)) = row.get_ref(at) else {
        return Err(StatementFault::StoreFailed);
    };
    let Ok(microdegrees) = i32::try_from(whole) else {
        return Err(StatementFault::StoreFailed);
    };
    Micro::new(microdegrees).ok_or(StatementFault::StoreFailed)
}
