//! One line of comma-separated values.

ghost use Rattle.std.specs.Prelude.{◌≡◌, IfOk, map};
ghost use Rattle.bike_day_texts.specs.Rows.{line_of};
ghost use Rattle.bike_day_texts.specs.Writing.{WritesLine};

use crate::fault::LineFault;
use bike_stream::write_whole;
use csv::WriterBuilder;
use std::alloc::{AllocError, Global};
use std::io::Write;

/// The fields as one line, which ends in a line feed; an error where memory was refused.
#[tactic(auto, unfolding(crate::specs::Rows::line_of))]
fn line_text(alloc: Global, fields: &[&[u8]]) -> Result<Vec<u8>, AllocError>
    ensures { IfOk result (λ text. text.items ≡ line_of (map (λ f. f.now) fields.now)) }
{
    let mut writer = WriterBuilder::new().from_writer(Vec::new(alloc));
    // A write to memory fails for want of memory alone.
    writer.write_fields(fields).map_err(|_| AllocError)?;
    writer.into_inner().map_err(|_| AllocError)
}

/// Writes the fields as one line, which is made in memory first.
pub(crate) fn write_line<W: Write>(
    alloc: Global,
    fields: &[&[u8]],
    out: &mut W,
) -> Result<(), LineFault>
    ensures { WritesLine (W.contents out.old) (W.contents out.new) (line_of (map (λ f. f.now) fields.now)) result }
{
    let text = line_text(alloc, fields)?;
    write_whole(out, text.as_slice())?;
    Ok(())
}
