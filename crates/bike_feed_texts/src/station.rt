//! The elements of `station_information`.

ghost use Rattle.std.specs.Prelude.{◌≡◌, ◌<◌, IsTrue, length, is_ok, not, option_map};
ghost use Rattle.bike_json.specs.State.{IsAt, takes_value, after_value};
ghost use Rattle.bike_feed_texts.specs.Elements.{members, region_members, station_tree};
ghost use Rattle.bike_feed_texts.specs.Writing.{WroteMembers, WroteValue};

use crate::members::{localized_member, micro_member, text_member, whole_member};
use bike_catalogue::{MoreName, Station, System};
use bike_fields::Ident;
use bike_json::{JsonState, Level, Output, member};
use bike_stream::WriteFault;

/// The region in which a station stands, where it stands in one.
fn region_member<W: Output>(json: &mut JsonState, out: &mut W, region: Option<&Ident>)
    requires { json.old.top ≡ Level.FilledObject }
    ensures wrote { WroteMembers json.old json.new (W.contents out.old) (W.contents out.new)
        (members (region_members (option_map (λ id. id.now) region.entry))) }
    ensures place { IsAt json.new Level.FilledObject json.old.round }
{
    match region {
        None => {}
        Some(region) => text_member(json, out, member!("region_id"), region.as_str()),
    }
}

/// Writes a station: its name and further names, its place, the region in which it stands, if any, and how many docks
/// it has.
pub fn write_station<W: Output>(
    json: &mut JsonState,
    out: &mut W,
    system: &System,
    station: &Station,
    region: Option<&Ident>,
    names: &[MoreName],
) -> Result<(), WriteFault>
    requires value { IsTrue (takes_value json.old.top) }
    requires room { length json.old.round < 14 }
    ensures wrote { WroteValue json.old json.new (W.contents out.old) (W.contents out.new)
        (station_tree system.now station.now (option_map (λ id. id.now) region.entry) names.now) }
    ensures place { IsAt json.new (after_value json.old.top) json.old.round }
    ensures outcome { is_ok result ≡ not json.new.failed }
{
    let _ = json.begin_object(out);
    text_member(
        json,
        out,
        member!("station_id"),
        station.station_id().as_str(),
    );
    localized_member(json, out, member!("name"), system, station.name(), names);
    micro_member(json, out, member!("lat"), station.lat());
    micro_member(json, out, member!("lon"), station.lon());
    region_member(json, out, region);
    whole_member(json, out, member!("capacity"), station.docks().get());
    json.end_object(out)
}
