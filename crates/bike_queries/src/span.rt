//! What a walk in order of numbers over a span of time asks for.

ghost use Rattle.std.specs.Prelude.{◌≡◌, min, pos};
ghost use Rattle.bike_operator.specs.declared.limits.TheConstants.{MOST_ENTRIES};

use bike_fixed::Moment;
use bike_operator::MOST_ENTRIES;

/// The number after which the walk goes on. No entry and no rental comes after the greatest number of all, nor after
/// one that is greater than that.
pub(crate) fn start_at(number: u64) -> u32
    ensures { result ≡ min number MOST_ENTRIES }
{
    number.min(u64::from(MOST_ENTRIES)) as u32
}

/// The seconds of a moment.
pub(crate) fn seconds_of(moment: Moment) -> i64
    ensures { result ≡ pos moment }
{
    moment.seconds() as i64
}
