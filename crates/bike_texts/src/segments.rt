//! The segments of a plan, `START:RATE:INTERVAL:END` with `;` between them.

ghost use Rattle.std.specs.Prelude.{◌≡◌};
ghost use Rattle.bike_fields.specs.Reads.{Gives};
ghost use Rattle.bike_fields.specs.declared.limits.TheConstants.{MOST_SEGMENTS};
ghost use Rattle.bike_texts.specs.Reading.{at_most};
ghost use Rattle.bike_texts.specs.SegmentReading.{segment_end_of, segment_of, all_of, segments_of};

use crate::fields::Fields;
use arrayvec::ArrayVec;
use bike_fields::{MOST_SEGMENTS, Rate, Segment, SegmentMinute};

/// The segments of a plan, at most `MOST_SEGMENTS`, before they have memory of their own.
pub type SegmentList = ArrayVec<Segment, MOST_SEGMENTS>;

/// The minute before which a segment ends, or none for `-`.
#[tactic(auto, unfolding(crate::specs::SegmentReading::segment_end_of))]
fn read_end(text: &str) -> Option<Option<SegmentMinute>>
    ensures { result ≡ segment_end_of text.now }
{
    if text == "-" {
        return Some(None);
    }
    let end = SegmentMinute::read(text)?;
    Some(Some(end))
}

/// The segment that the text spells.
#[tactic(auto, unfolding(crate::specs::SegmentReading::segment_of))]
fn read_segment(text: &str) -> Option<Segment>
    ensures { result ≡ segment_of text.now }
{
    let mut fields = Fields::cut(text, ':');
    let start = fields.number()?;
    let rate = Rate::read(fields.part()?)?;
    let interval = fields.number()?;
    let end = read_end(fields.part()?)?;
    fields.end()?;
    Segment::from_fields(start, rate, interval, end)
}

/// The segments that the parts spell, one each and at most `MOST_SEGMENTS`.
fn read_all(mut parts: Fields) -> Option<SegmentList>
    ensures { Gives (λ list. list.items) result (at_most MOST_SEGMENTS (all_of parts.entry)) }
{
    let mut segments: SegmentList = ArrayVec::new();
    while let Some(text) = parts.part() {
        let segment = read_segment(text)?;
        if segments.is_full() {
            return None;
        }
        segments.push(segment);
    }
    Some(segments)
}

/// The segments that the text spells, at most `MOST_SEGMENTS`, or none for `-`.
#[tactic(auto, unfolding(crate::specs::SegmentReading::segments_of))]
pub fn read_segments(text: &str) -> Option<SegmentList>
    ensures { Gives (λ list. list.items) result (segments_of text.now) }
{
    if text == "-" {
        return Some(ArrayVec::new());
    }
    read_all(Fields::cut(text, ';'))
}
