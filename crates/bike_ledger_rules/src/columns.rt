//! The key of a line.

ghost use Rattle.std.specs.Prelude.{◌≡◌, IfOk, [], ◌∷◌, take};
ghost use Rattle.sqlite_value.specs.Order.{column};
ghost use Rattle.bike_judges.specs.Judging.{key_row};

use bike_judges::BadKey;
use bike_schema::StatementFault;
use sqlite::Row;
use sqlite::types::ValueRef;

/// The number in the first column as a key. `StoreFailed` where it holds none, which no table's does.
#[tactic(auto, using(crate::proofs::Holds::first_number))]
pub(crate) fn number_key(line: &Row) -> Result<BadKey, StatementFault>
    ensures { IfOk result (λ found. key_row found ≡ take 1 line.now) }
{
    match line.get_ref(0) {
        Ok(ValueRef::Int(number)) => Ok(BadKey::Number(number)),
        _ => Err(StatementFault::StoreFailed),
    }
}

/// The number in a column as a key. `StoreFailed` where it holds none.
pub(crate) fn number_at(line: &Row, at: usize) -> Result<BadKey, StatementFault>
    ensures { IfOk result (λ found. key_row found ≡ column line.now at ∷ []) }
{
    match line.get_ref(at) {
        Ok(ValueRef::Int(number)) => Ok(BadKey::Number(number)),
        _ => Err(StatementFault::StoreFailed),
    }
}
