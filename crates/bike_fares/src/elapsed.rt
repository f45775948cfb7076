//! How long a rental is charged for.

ghost use Rattle.std.specs.Prelude.{◌≡◌, ◌≤◌};
ghost use Rattle.bike_fares.specs.Pricing.{elapsed_seconds};
ghost use Rattle.bike_fares.specs.declared.elapsed.TheConstants.{LONGEST};

use bike_fixed::Moment;

/// Thirty days in seconds: what lasts longer costs no more.
pub const LONGEST: u64 = 2_592_000;

/// The minutes 0 to 43,200 of thirty days.
pub const MINUTES: u32 = 43_201;

/// The seconds from start to end, at most thirty days.
pub fn elapsed_seconds(start: &Moment, end: &Moment) -> u32
    requires { start.now ≤ end.now }
    ensures value { result ≡ elapsed_seconds start.now end.now }
    ensures high { result ≤ LONGEST }
{
    (end.seconds() - start.seconds()).min(LONGEST) as u32
}
