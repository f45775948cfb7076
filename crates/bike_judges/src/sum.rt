//! What so many entries can come to.

ghost use Rattle.std.specs.Prelude.{◌≡◌};
ghost use Rattle.bike_judges.specs.Sums.{is_sum_of};

use bike_fixed::{Cents, GREATEST_FARE};

/// Whether so many entries can come to this sum.
pub fn is_sum_of(entries: u32, sum: Cents) -> bool
    ensures { result ≡ is_sum_of entries sum }
{
    let most = i128::from(GREATEST_FARE) * i128::from(entries);
    let hundredths = i128::from(sum.hundredths());
    -most <= hundredths && hundredths <= most
}
