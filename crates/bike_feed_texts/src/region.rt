//! The elements of `system_regions`.

ghost use Rattle.std.specs.Prelude.{◌≡◌, ◌<◌, IsTrue, length, is_ok, not};
ghost use Rattle.bike_json.specs.State.{IsAt, takes_value, after_value};
ghost use Rattle.bike_feed_texts.specs.Elements.{region_tree};
ghost use Rattle.bike_feed_texts.specs.Writing.{WroteValue};

use crate::members::{localized_member, text_member};
use bike_catalogue::{MoreName, Region, System};
use bike_json::{JsonState, Output, member};
use bike_stream::WriteFault;

/// Writes a region, with its further names.
pub fn write_region<W: Output>(
    json: &mut JsonState,
    out: &mut W,
    system: &System,
    region: &Region,
    names: &[MoreName],
) -> Result<(), WriteFault>
    requires value { IsTrue (takes_value json.old.top) }
    requires room { length json.old.round < 14 }
    ensures wrote { WroteValue json.old json.new (W.contents out.old) (W.contents out.new)
        (region_tree system.now region.now names.now) }
    ensures place { IsAt json.new (after_value json.old.top) json.old.round }
    ensures outcome { is_ok result ≡ not json.new.failed }
{
    let _ = json.begin_object(out);
    text_member(json, out, member!("region_id"), region.region_id().as_str());
    localized_member(json, out, member!("name"), system, region.name(), names);
    json.end_object(out)
}
