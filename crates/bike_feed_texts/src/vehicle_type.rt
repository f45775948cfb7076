//! The elements of `vehicle_types`.

ghost use Rattle.std.specs.Prelude.{◌≡◌, ◌<◌, IsTrue, length, is_ok, not};
ghost use Rattle.bike_json.specs.State.{IsAt, takes_value, after_value};
ghost use Rattle.bike_feed_texts.specs.Elements.{members, range_members, type_tree};
ghost use Rattle.bike_feed_texts.specs.Writing.{WroteMembers, WroteValue};

use crate::members::{localized_member, text_member, whole_member};
use bike_catalogue::{MoreName, System, VehicleType};
use bike_fields::Propulsion;
use bike_json::{JsonState, Level, Output, member};
use bike_stream::WriteFault;

/// The greatest range in metres, where the propulsion has one.
fn range_member<W: Output>(json: &mut JsonState, out: &mut W, propulsion: Propulsion, metres: u32)
    requires { json.old.top ≡ Level.FilledObject }
    ensures wrote { WroteMembers json.old json.new (W.contents out.old) (W.contents out.new)
        (members (range_members propulsion metres)) }
    ensures place { IsAt json.new Level.FilledObject json.old.round }
{
    match propulsion {
        Propulsion::Human => {}
        Propulsion::ElectricAssist => whole_member(json, out, member!("max_range_meters"), metres),
    }
}

/// Writes a vehicle type, with its further names.
pub fn write_type<W: Output>(
    json: &mut JsonState,
    out: &mut W,
    system: &System,
    vehicle_type: &VehicleType,
    names: &[MoreName],
) -> Result<(), WriteFault>
    requires value { IsTrue (takes_value json.old.top) }
    requires room { length json.old.round < 14 }
    ensures wrote { WroteValue json.old json.new (W.contents out.old) (W.contents out.new)
        (type_tree system.now vehicle_type.now names.now) }
    ensures place { IsAt json.new (after_value json.old.top) json.old.round }
    ensures outcome { is_ok result ≡ not json.new.failed }
{
    let propulsion = vehicle_type.propulsion();
    let _ = json.begin_object(out);
    text_member(
        json,
        out,
        member!("vehicle_type_id"),
        vehicle_type.type_id().as_str(),
    );
    text_member(
        json,
        out,
        member!("form_factor"),
        vehicle_type.form().as_str(),
    );
    text_member(json, out, member!("propulsion_type"), propulsion.as_str());
    range_member(json, out, propulsion, vehicle_type.max_range().get());
    localized_member(
        json,
        out,
        member!("name"),
        system,
        vehicle_type.name(),
        names,
    );
    text_member(
        json,
        out,
        member!("default_pricing_plan_id"),
        vehicle_type.plan_id().as_str(),
    );
    json.end_object(out)
}
