//! The key of a bad line.

ghost use Rattle.std.specs.Prelude.{◌≡◌, take, IfOk};
ghost use Rattle.bike_judges.specs.Judging.{key_row};

use bike_judges::BadKey;
use bike_schema::StatementFault;
use sqlite::Row;
use sqlite::types::ValueRef;

/// The number with which a line begins; `StoreFailed` where it begins with none, as no line of such a table does.
pub(crate) fn number_key(line: &Row) -> Result<BadKey, StatementFault>
    ensures { IfOk result (λ key. key_row key ≡ take 1 line.now) }
{
    match line.get_ref(0) {
        Ok(ValueRef::Int(number)) => Ok(BadKey::Number(number)),
        _ => Err(StatementFault::StoreFailed),
    }
}

/// The first columns of a line; `NoMemory` where memory is refused.
pub(crate) fn columns_key(line: &Row, keys: usize) -> Result<BadKey, StatementFault>
    ensures { IfOk result (λ key. key_row key ≡ take keys line.now) }
{
    Ok(BadKey::Columns(line.copy()?, keys))
}
