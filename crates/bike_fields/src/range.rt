//! Numbers of a record's fields, tested against their ranges.

ghost use Rattle.std.specs.Prelude.{◌≡◌, ◌≤ℤ◌, pos, neg_ℤ, IfOk};
ghost use Rattle.bike_fields.specs.Fault.{at_field};
ghost use Rattle.bike_fields.specs.declared.limits.TheConstants.{GREATEST_RATE};
ghost use Rattle.bike_fields.specs.Faults.{value_or_fault, range_fault, signed_fault, IsCoordinateBound};

use crate::rate::Rate;
use crate::{Bound, Field, FieldFault};
use bike_fixed::{Micro, Within};

/// The number as that field. The one error is `Broken`, of this field and its range, where the number is below `LO` or
/// above `HI`.
pub fn in_range<const LO: u32, const HI: u32, K>(
    field: Field,
    number: u32,
) -> Result<Within<LO, HI, K>, FieldFault>
    ensures { result ≡ value_or_fault number (at_field field (range_fault LO HI number)) }
{
    match Within::new(number) {
        Some(number) => Ok(number),
        None => Err(FieldFault::Broken {
            field,
            bound: Bound::Range,
        }),
    }
}

/// The rate of a segment, in hundredths. The one error is `Broken`, of the rate and its range, where its size is above
/// `GREATEST_RATE`.
pub(crate) fn rate_of(hundredths: i32) -> Result<Rate, FieldFault>
    ensures { result ≡ value_or_fault hundredths (at_field Field.Rate (signed_fault GREATEST_RATE hundredths)) }
{
    match Rate::new(hundredths) {
        Some(rate) => Ok(rate),
        None => Err(FieldFault::Broken {
            field: Field::Rate,
            bound: Bound::Range,
        }),
    }
}

/// A coordinate as that field, in microdegrees. The one error is `Broken`, of this field and its range, where its size
/// is above `greatest`.
pub fn coordinate(field: Field, microdegrees: i32, greatest: u32) -> Result<Micro, FieldFault>
    requires { IsCoordinateBound greatest }
    ensures value { result ≡ value_or_fault microdegrees (at_field field (signed_fault greatest microdegrees)) }
    ensures bounds { IfOk result (λ m. (neg_ℤ (pos greatest) ≤ℤ m) × (m ≤ℤ pos greatest)) }
{
    match Micro::new(microdegrees) {
        Some(micro) if microdegrees.unsigned_abs() <= greatest => Ok(micro),
        _ => Err(FieldFault::Broken {
            field,
            bound: Bound::Range,
        }),
    }
}
