//! Fares minute by minute: slow, and as plain as the rule.

ghost use Rattle.std.specs.Prelude.{◌≡◌, ◌<◌, ◌≤◌, ◌≤ℤ◌, pos, neg_ℤ, length};
ghost use Rattle.bike_fields.specs.declared.limits.TheConstants.{GREATEST_RATE, MOST_SEGMENTS};
ghost use Rattle.bike_fares.specs.declared.elapsed.TheConstants.{MINUTES};
ghost use Rattle.bike_fares.specs.Pricing.{is_charged, segment_charge, per_min_pricing, reached_charge, fare_of};
ghost use Rattle.bike_fares.specs.Pricing.{greatest_fare, most_at_minute};

use crate::elapsed::{MINUTES, elapsed_seconds};
use bike_catalogue::Plan;
use bike_fields::Segment;
use bike_fixed::{Cents, Moment};

/// Whether a segment charges at a minute.
fn is_charged(segment: &Segment, minute: u32) -> bool
    ensures { result ≡ is_charged segment.now minute }
{
    let start = segment.start();
    let interval = segment.interval();
    let is_due = minute == start
        || (start < minute && interval > 0 && (minute - start) % interval == 0);
    let is_before_end = match segment.end() {
        None => true,
        Some(end) => minute < end,
    };
    is_due && is_before_end
}

/// What a segment charges at a minute.
fn segment_charge(segment: &Segment, minute: u32) -> i64
    ensures value { result ≡ segment_charge segment.now minute }
    ensures low { neg_ℤ (pos GREATEST_RATE) ≤ℤ result }
    ensures high { result ≤ℤ pos GREATEST_RATE }
{
    if is_charged(segment, minute) {
        i64::from(segment.rate())
    } else {
        0
    }
}

/// What all segments charge at a minute.
fn charges_at(segments: &[Segment], minute: u32) -> i64
    requires { length segments.now ≤ MOST_SEGMENTS }
    ensures value { result ≡ per_min_pricing segments.now minute }
    ensures low { neg_ℤ (pos most_at_minute) ≤ℤ result }
    ensures high { result ≤ℤ pos most_at_minute }
{
    let mut total = 0;
    for segment in segments {
        total += segment_charge(segment, minute);
    }
    total
}

/// What all segments charge at a minute, where the rental reached it.
fn reached_charge(segments: &[Segment], seconds: u32, minute: u32) -> i64
    requires few { length segments.now ≤ MOST_SEGMENTS }
    requires within { minute < MINUTES }
    ensures value { result ≡ reached_charge segments.now seconds minute }
    ensures low { neg_ℤ (pos most_at_minute) ≤ℤ result }
    ensures high { result ≤ℤ pos most_at_minute }
{
    if 60 * minute <= seconds {
        charges_at(segments, minute)
    } else {
        0
    }
}

/// What a rental under the plan costs, in hundredths, by going through its minutes: the same as `fare`, thousands
/// of times slower. No memory is taken.
pub fn fare_by_minutes(plan: &Plan, start: Moment, end: Moment) -> Cents
    requires { start ≤ end }
    ensures value { result ≡ fare_of plan.now start end }
    ensures low { pos 0 ≤ℤ result }
    ensures high { result ≤ℤ greatest_fare }
{
    let seconds = elapsed_seconds(&start, &end);
    let mut cost = i64::from(plan.price().get());
    for minute in 0..MINUTES {
        cost += reached_charge(plan.segments(), seconds, minute);
    }
    Cents::new(cost.max(0))
}
