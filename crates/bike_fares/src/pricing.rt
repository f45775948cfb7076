//! Fares by division.

ghost use Rattle.std.specs.Prelude.{◌≡◌, ◌≤◌, ◌≤ℤ◌, ◌+ℤ◌, pos, neg_ℤ, length};
ghost use Rattle.bike_fields.specs.declared.limits.TheConstants.{MOST_SEGMENTS};
ghost use Rattle.bike_fares.specs.declared.elapsed.TheConstants.{MINUTES};
ghost use Rattle.bike_fares.specs.Pricing.{fare_of, greatest_fare};
ghost use Rattle.bike_fares.specs.Counting.{count_below, minutes_before, segment_total, segments_total};
ghost use Rattle.bike_fares.specs.Counting.{most_of_segment, most_of_segments};

use crate::elapsed::elapsed_seconds;
use bike_catalogue::Plan;
use bike_fields::Segment;
use bike_fixed::{Cents, Moment};

/// How many of the minutes below `minutes` are the start, or whole intervals after it.
fn count_below(start: u32, interval: u32, minutes: u32) -> u32
    ensures value { result ≡ count_below start interval minutes }
    ensures high { result ≤ minutes }
{
    if minutes <= start {
        return 0;
    }
    if interval == 0 {
        return 1;
    }
    (minutes - 1 - start) / interval + 1
}

/// The minutes that come before a segment's end.
fn minutes_before(end: Option<u32>, minutes: u32) -> u32
    ensures value { result ≡ minutes_before end minutes }
    ensures high { result ≤ minutes }
{
    match end {
        None => minutes,
        Some(end) => minutes.min(end),
    }
}

/// What a segment charges below `minutes`.
fn segment_total(segment: &Segment, minutes: u32) -> i64
    requires { minutes ≤ MINUTES }
    ensures value { result ≡ segment_total segment.now minutes }
    ensures low { neg_ℤ (pos most_of_segment) ≤ℤ result }
    ensures high { result ≤ℤ pos most_of_segment }
{
    let minutes = minutes_before(segment.end(), minutes);
    let count = count_below(segment.start(), segment.interval(), minutes);
    i64::from(segment.rate()) * i64::from(count)
}

/// What all segments charge below `minutes`.
fn segments_total(segments: &[Segment], minutes: u32) -> i64
    requires few { length segments.now ≤ MOST_SEGMENTS }
    requires within { minutes ≤ MINUTES }
    ensures value { result ≡ segments_total segments.now minutes }
    ensures low { neg_ℤ (pos most_of_segments) ≤ℤ result }
    ensures high { result ≤ℤ pos most_of_segments }
{
    let mut total = 0;
    for segment in segments {
        total += segment_total(segment, minutes);
    }
    total
}

/// What a rental under the plan costs, in hundredths: the greater of 0 and the plan's price with each segment's
/// rate at each whole minute that it charges, from the rental's start to its end. A segment charges at its start
/// minute, then at each interval (once with the interval 0), before its end minute, and where segments overlap
/// they add up (GBFS v3.0, `system_pricing_plans.json`, `per_min_pricing`). A rental of more than thirty days
/// costs what thirty days do. No memory is taken.
pub fn fare(plan: &Plan, start: Moment, end: Moment) -> Cents
    requires { start ≤ end }
    ensures value { result ≡ fare_of plan.now start end }
    ensures low { pos 0 ≤ℤ result }
    ensures high { result ≤ℤ greatest_fare }
{
    let minutes = elapsed_seconds(&start, &end) / 60 + 1;
    let cost = i64::from(plan.price().get()) + segments_total(plan.segments(), minutes);
    Cents::new(cost.max(0))
}
