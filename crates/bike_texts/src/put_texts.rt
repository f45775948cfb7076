//! Writing texts: each is appended behind a TAB.

ghost use Rattle.std.specs.Prelude.{◌≡◌, ◌++◌, ◌∷◌, decimal, OnOk, string_bytes};
ghost use Rattle.std.specs.Char.{encode_utf8};
ghost use Rattle.std.specs.Fmt.{signed_decimal};
ghost use Rattle.bike_texts.specs.Fields.{escapes_of, segment_end_text, segment_text, segments_text};
ghost use Rattle.bike_texts.specs.Writing.{others_text};

use bike_fields::Segment;
use bike_fixed::{Within, signed_text};
use itoa::Buffer;
use std::alloc::AllocError;

/// The number's decimal.
pub fn put_number<const LO: u32, const HI: u32, K>(
    out: &mut String,
    number: &Within<LO, HI, K>,
) -> Result<(), AllocError>
    ensures { OnOk result (string_bytes out.new ≡ string_bytes out.old ++ 9 ∷ decimal number.now) }
{
    out.push('\t')?;
    let mut buffer = Buffer::new();
    out.push_str(buffer.format(number.get()))
}

/// The text as it stands.
pub fn put_text(out: &mut String, text: &str) -> Result<(), AllocError>
    ensures { OnOk result (string_bytes out.new ≡ string_bytes out.old ++ 9 ∷ text.now) }
{
    out.push('\t')?;
    out.push_str(text)
}

/// A character, or its escape.
#[tactic(auto, unfolding(crate::specs::Fields::escapes_of))]
fn push_escaped(out: &mut String, c: char) -> Result<(), AllocError>
    ensures { OnOk result (string_bytes out.new ≡ string_bytes out.old ++ escapes_of (encode_utf8 c)) }
{
    match c {
        '\\' => out.push_str("\\\\"),
        '\t' => out.push_str("\\t"),
        '\n' => out.push_str("\\n"),
        '\r' => out.push_str("\\r"),
        _ => out.push(c),
    }
}

/// The text, where a backslash, a TAB, an LF and a CR are escaped.
pub fn put_escaped(out: &mut String, text: &str) -> Result<(), AllocError>
    ensures { OnOk result (string_bytes out.new ≡ string_bytes out.old ++ 9 ∷ escapes_of text.now) }
{
    out.push('\t')?;
    for c in text.chars() {
        push_escaped(out, c)?;
    }
    Ok(())
}

fn push_decimal(out: &mut String, number: u32) -> Result<(), AllocError>
    ensures { OnOk result (string_bytes out.new ≡ string_bytes out.old ++ decimal number) }
{
    let mut buffer = Buffer::new();
    out.push_str(buffer.format(number))
}

/// The rate's decimal behind a colon, in hundredths.
fn push_rate(out: &mut String, segment: &Segment) -> Result<(), AllocError>
    ensures { OnOk result (string_bytes out.new ≡ string_bytes out.old ++ 58 ∷ signed_decimal segment.now.rate) }
{
    out.push(':')?;
    out.push_str(signed_text(i64::from(segment.rate())).as_str())
}

/// The interval behind a colon, in minutes.
fn push_interval(out: &mut String, segment: &Segment) -> Result<(), AllocError>
    ensures { OnOk result (string_bytes out.new ≡ string_bytes out.old ++ 58 ∷ decimal segment.now.interval) }
{
    out.push(':')?;
    push_decimal(out, segment.interval())
}

/// The end behind a colon, in minutes, or `-` for none.
fn push_segment_end(out: &mut String, segment: &Segment) -> Result<(), AllocError>
    ensures { OnOk result (string_bytes out.new ≡ string_bytes out.old ++ 58 ∷ segment_end_text segment.now.end) }
{
    out.push(':')?;
    match segment.end() {
        None => out.push('-'),
        Some(end) => push_decimal(out, end),
    }
}

/// `START:RATE:INTERVAL:END`.
fn push_segment(out: &mut String, segment: &Segment) -> Result<(), AllocError>
    ensures { OnOk result (string_bytes out.new ≡ string_bytes out.old ++ segment_text segment.now) }
{
    push_decimal(out, segment.start())?;
    push_rate(out, segment)?;
    push_interval(out, segment)?;
    push_segment_end(out, segment)
}

/// A segment behind a semicolon.
fn push_other(out: &mut String, segment: &Segment) -> Result<(), AllocError>
    ensures { OnOk result (string_bytes out.new ≡ string_bytes out.old ++ 59 ∷ segment_text segment.now) }
{
    out.push(';')?;
    push_segment(out, segment)
}

fn push_others(out: &mut String, segments: &[Segment]) -> Result<(), AllocError>
    ensures { OnOk result (string_bytes out.new ≡ string_bytes out.old ++ others_text segments.now) }
{
    for segment in segments {
        push_other(out, segment)?;
    }
    Ok(())
}

/// The segments with a semicolon between them, or `-` for none.
pub fn put_segments(out: &mut String, segments: &[Segment]) -> Result<(), AllocError>
    ensures { OnOk result (string_bytes out.new ≡ string_bytes out.old ++ 9 ∷ segments_text segments.now) }
{
    out.push('\t')?;
    match segments.split_first() {
        None => out.push('-'),
        Some((first, others)) => {
            push_segment(out, first)?;
            push_others(out, others)
        }
    }
}
