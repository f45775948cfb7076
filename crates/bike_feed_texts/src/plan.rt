//! The elements of `system_pricing_plans`.

ghost use Rattle.std.specs.Prelude.{◌≡◌, ◌<◌, IsTrue, length, false, is_ok, not};
ghost use Rattle.bike_json.specs.Rows.{items};
ghost use Rattle.bike_json.specs.State.{IsAt, Wrote, takes_name, takes_value, takes_array_end, after_value};
ghost use Rattle.bike_json.specs.Tree.{array, items_text};
ghost use Rattle.bike_feed_texts.specs.Elements.{members, end_members, segment_tree, pricing_members, plan_tree};
ghost use Rattle.bike_feed_texts.specs.Writing.{WroteMember, WroteMembers, WroteValue};

use crate::members::{cents_member, flag_member, localized_member, text_member, whole_member};
use bike_catalogue::{MoreName, Plan, System};
use bike_fields::Segment;
use bike_fixed::Cents;
use bike_json::{JsonState, Level, MemberName, Output, member};
use bike_stream::WriteFault;

/// The minute at which a segment ends, where it does.
fn end_member<W: Output>(json: &mut JsonState, out: &mut W, end: Option<u32>)
    requires { json.old.top ≡ Level.FilledObject }
    ensures wrote { WroteMembers json.old json.new (W.contents out.old) (W.contents out.new)
        (members (end_members end)) }
    ensures place { IsAt json.new Level.FilledObject json.old.round }
{
    match end {
        None => {}
        Some(minute) => whole_member(json, out, member!("end"), minute),
    }
}

fn write_segment<W: Output>(json: &mut JsonState, out: &mut W, segment: &Segment)
    requires value { IsTrue (takes_value json.old.top) }
    requires room { length json.old.round < 16 }
    ensures wrote { WroteValue json.old json.new (W.contents out.old) (W.contents out.new) (segment_tree segment.now) }
    ensures place { IsAt json.new (after_value json.old.top) json.old.round }
{
    let _ = json.begin_object(out);
    whole_member(json, out, member!("start"), segment.start());
    cents_member(
        json,
        out,
        member!("rate"),
        Cents::new(i64::from(segment.rate())),
    );
    whole_member(json, out, member!("interval"), segment.interval());
    end_member(json, out, segment.end());
    let _ = json.end_object(out);
}

/// The segments as items.
fn write_segments<W: Output>(json: &mut JsonState, out: &mut W, segments: &[Segment])
    requires top { json.old.top ≡ Level.EmptyArray }
    requires room { length json.old.round < 16 }
    ensures wrote { Wrote json.old json.new (W.contents out.old) (W.contents out.new)
        (items_text false (items segment_tree segments.now)) }
    ensures place { IsTrue (takes_array_end json.new.top) × (json.new.round ≡ json.old.round) }
{
    for segment in segments {
        write_segment(json, out, segment);
    }
}

/// The segments as a member.
fn segments_member<W: Output>(
    json: &mut JsonState,
    out: &mut W,
    name: MemberName,
    segments: &[Segment],
)
    requires name { IsTrue (takes_name json.old.top) }
    requires room { length json.old.round < 15 }
    ensures wrote { WroteMember json.old json.new (W.contents out.old) (W.contents out.new) name.plain.now
        (array (items segment_tree segments.now)) }
    ensures place { IsAt json.new Level.FilledObject json.old.round }
{
    let _ = json.member(out, name);
    let _ = json.begin_array(out);
    write_segments(json, out, segments);
    let _ = json.end_array(out);
}

/// The segments as a member, where there are any.
fn pricing_member<W: Output>(json: &mut JsonState, out: &mut W, segments: &[Segment])
    requires top { json.old.top ≡ Level.FilledObject }
    requires room { length json.old.round < 15 }
    ensures wrote { WroteMembers json.old json.new (W.contents out.old) (W.contents out.new)
        (members (pricing_members segments.now)) }
    ensures place { IsAt json.new Level.FilledObject json.old.round }
{
    if !segments.is_empty() {
        segments_member(json, out, member!("per_min_pricing"), segments);
    }
}

/// Writes a pricing plan, with the further names of itself and of its description, and its segments where it has any.
pub fn write_plan<W: Output>(
    json: &mut JsonState,
    out: &mut W,
    system: &System,
    plan: &Plan,
    names: &[MoreName],
    descriptions: &[MoreName],
) -> Result<(), WriteFault>
    requires value { IsTrue (takes_value json.old.top) }
    requires room { length json.old.round < 14 }
    ensures wrote { WroteValue json.old json.new (W.contents out.old) (W.contents out.new)
        (plan_tree system.now plan.now names.now descriptions.now) }
    ensures place { IsAt json.new (after_value json.old.top) json.old.round }
    ensures outcome { is_ok result ≡ not json.new.failed }
{
    let _ = json.begin_object(out);
    text_member(json, out, member!("plan_id"), plan.plan_id().as_str());
    localized_member(json, out, member!("name"), system, plan.name(), names);
    text_member(json, out, member!("currency"), system.currency().as_str());
    cents_member(
        json,
        out,
        member!("price"),
        Cents::new(i64::from(plan.price().get())),
    );
    flag_member(json, out, member!("is_taxable"), plan.taxable());
    localized_member(
        json,
        out,
        member!("description"),
        system,
        plan.description(),
        descriptions,
    );
    pricing_member(json, out, plan.segments());
    json.end_object(out)
}
