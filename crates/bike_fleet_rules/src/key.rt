//! The key of a bad line.

ghost use Rattle.std.specs.Prelude.{◌≡◌, IfOk};
ghost use Rattle.bike_judges.specs.Judging.{key_row};
ghost use Rattle.bike_fleet_rules.specs.Tests.{first_key};

use bike_judges::BadKey;
use bike_schema::{StatementFault, cents_at};
use sqlite::Row;

/// The number in the first column; any other is `StoreFailed`.
#[tactic(auto, using(crate::proofs::ColumnLemmas::whole_key))]
pub(crate) fn number_key(line: &Row) -> Result<BadKey, StatementFault>
    ensures { IfOk result (λ found. key_row found ≡ first_key line.now) }
{
    let number = cents_at(line, 0)?;
    Ok(BadKey::Number(number.hundredths()))
}
