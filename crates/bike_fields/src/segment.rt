//! Segments of plans.

ghost use Rattle.std.specs.Prelude.{◌≡◌, Some, None, if◌then◌else◌};
ghost use Rattle.bike_fields.specs.Values.{SegmentRow, IsSegment, is_after};
ghost use Rattle.bike_fields.specs.Fault.{at_field};
ghost use Rattle.bike_fields.specs.Faults.{value_or_fault, segment_fault, end_fault};

use crate::range::{in_range, rate_of};
use crate::rate::Rate;
use crate::{Bound, Field, FieldFault, SegmentMinute};
use std::marker::Model;

/// One segment of a plan's per-minute pricing: from the minute `start` on, before the minute `end` where there is
/// one, `rate` is charged every `interval` minutes, or once where the interval is 0 (GBFS's `per_min_pricing`).
#[derive(Clone, Copy, Debug)]
pub struct Segment {
    start: SegmentMinute,
    rate: Rate,
    interval: SegmentMinute,
    end: Option<SegmentMinute>,
}

impl Model for Segment {
    ghost use Rattle.bike_fields.specs.Values.{SegmentRow, IsSegment};

    ghost Value = { SegmentRow };

    ghost view = { λ a. record { start = a.start; rate = a.rate; interval = a.interval; end = a.end } };

    ghost invariant = { λ a. IsSegment (record {
      start = a.start;
      rate = a.rate;
      interval = a.interval;
      end = a.end;
    }) };

    ghost inverse = { λ r. record { start = r.start; rate = r.rate; interval = r.interval; end = r.end } };
}

impl Default for Segment {
    ghost use Rattle.std.specs.Prelude.{◌≡◌, pos, None};

    ghost is_default = { λ s. s ≡ record { start = 0; rate = pos 0; interval = 0; end = None } };

    /// The segment that charges nothing.
    fn default() -> Segment {
        let (Some(minute), Some(rate)) = (SegmentMinute::new(0), Rate::new(0)) else {
            unreachable!()
        };
        Segment {
            start: minute,
            rate,
            interval: minute,
            end: None,
        }
    }
}

/// The end of a segment that starts at a minute.
fn end_after(start: &SegmentMinute, end: Option<u32>) -> Result<Option<SegmentMinute>, FieldFault>
    ensures { result ≡ value_or_fault end (at_field Field.End (end_fault start.now end)) }
{
    let Some(end) = end else {
        return Ok(None);
    };
    let end: SegmentMinute = in_range(Field::End, end)?;
    if end.get() <= start.get() {
        return Err(FieldFault::Broken {
            field: Field::End,
            bound: Bound::Order,
        });
    }
    Ok(Some(end))
}

impl Segment {
    /// The segment of these fields: minutes up to `LAST_MINUTE`, the end after the start, and a rate of at most
    /// `GREATEST_RATE`; else the first bad field with the first bound that it breaks. Memory is never taken.
    #[tactic(auto, unfolding(crate::specs::Faults::segment_fault))]
    pub fn new(
        start: u32,
        rate: i32,
        interval: u32,
        end: Option<u32>,
    ) -> Result<Segment, FieldFault>
        ensures { let row : SegmentRow = record {
          start = start;
          rate = rate;
          interval = interval;
          end = end;
        } in
            result ≡ value_or_fault row (segment_fault row) }
    {
        let start: SegmentMinute = in_range(Field::Start, start)?;
        let rate = rate_of(rate)?;
        let interval: SegmentMinute = in_range(Field::Interval, interval)?;
        let end = end_after(&start, end)?;
        Ok(Segment {
            start,
            rate,
            interval,
            end,
        })
    }

    /// The segment of these fields, where the end comes after the start.
    pub fn from_fields(
        start: SegmentMinute,
        rate: Rate,
        interval: SegmentMinute,
        end: Option<SegmentMinute>,
    ) -> Option<Segment>
        ensures { result ≡ (if is_after start end
            then Some (record { start = start; rate = rate; interval = interval; end = end }) else None) }
    {
        let ends = match &end {
            None => true,
            Some(end) => start.get() < end.get(),
        };
        if !ends {
            return None;
        }
        Some(Segment {
            start,
            rate,
            interval,
            end,
        })
    }

    /// The first minute that is charged, and the segment's bounds.
    pub fn start(&self) -> u32
        ensures value { result ≡ self.now.start }
        ensures bounds { IsSegment self.now }
    {
        self.start.get()
    }

    /// What is charged, in hundredths, and the segment's bounds.
    pub fn rate(&self) -> i32
        ensures value { result ≡ self.now.rate }
        ensures bounds { IsSegment self.now }
    {
        self.rate.hundredths()
    }

    /// After how many minutes it is charged again; 0 for never.
    pub fn interval(&self) -> u32
        ensures { result ≡ self.now.interval }
    {
        self.interval.get()
    }

    /// The minute from which nothing is charged, if there is one.
    pub fn end(&self) -> Option<u32>
        ensures { result ≡ self.now.end }
    {
        match &self.end {
            None => None,
            Some(end) => Some(end.get()),
        }
    }
}
