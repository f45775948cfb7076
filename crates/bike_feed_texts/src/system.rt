//! The feed of the system, written in parts, since its languages come one at a time.

ghost use Rattle.std.specs.Prelude.{◌≡◌, ◌∷◌, [], IsTrue, is_ok, not};
ghost use Rattle.bike_json.specs.State.{IsAt, Wrote, takes_value, takes_array_end, after_value};
ghost use Rattle.bike_json.specs.Tree.{text};
ghost use Rattle.bike_feed_texts.specs.Elements.{members};
ghost use Rattle.bike_feed_texts.specs.Trees.{contact_members};
ghost use Rattle.bike_feed_texts.specs.Writing.{WroteMembers, WroteValue, information_head_text, information_end_text};
ghost use Rattle.bike_feed_texts.specs.Writing.{in_feed, in_list};

use crate::frame::open_feed;
use crate::members::{localized_member, text_member};
use bike_catalogue::{MoreName, System};
use bike_fields::Language;
use bike_fixed::Moment;
use bike_json::{JsonState, Level, Output, member};
use bike_stream::WriteFault;

/// Begins the feed `system_information` of a system for a moment, up to the first of its languages: that is the
/// system's.
pub fn open_information<W: Output>(
    json: &mut JsonState,
    out: &mut W,
    system: &System,
    moment: Moment,
) -> Result<(), WriteFault>
    requires { IsAt json.old Level.Start [] }
    ensures wrote { Wrote json.old json.new (W.contents out.old) (W.contents out.new)
        (information_head_text system.now moment) }
    ensures place { IsAt json.new Level.EmptyArray in_list }
    ensures outcome { is_ok result ≡ not json.new.failed }
{
    open_feed(json, out, system, moment);
    let _ = json.begin_object(out);
    text_member(json, out, member!("system_id"), system.system_id().as_str());
    let _ = json.member(out, member!("languages"));
    json.begin_array(out)
}

/// Writes one of the languages.
pub fn write_language<W: Output>(
    json: &mut JsonState,
    out: &mut W,
    language: &Language,
) -> Result<(), WriteFault>
    requires { IsTrue (takes_value json.old.top) }
    ensures wrote { WroteValue json.old json.new (W.contents out.old) (W.contents out.new) (text language.now) }
    ensures place { IsAt json.new (after_value json.old.top) json.old.round }
    ensures outcome { is_ok result ≡ not json.new.failed }
{
    json.text(out, language.as_str())
}

/// The system's name, with its further names, and how it is reached.
fn contact<W: Output>(json: &mut JsonState, out: &mut W, system: &System, names: &[MoreName])
    requires { IsAt json.old Level.FilledObject in_feed }
    ensures wrote { WroteMembers json.old json.new (W.contents out.old) (W.contents out.new)
        (members (contact_members system.now names.now)) }
    ensures place { IsAt json.new Level.FilledObject in_feed }
{
    localized_member(json, out, member!("name"), system, system.name(), names);
    text_member(
        json,
        out,
        member!("opening_hours"),
        system.opening_hours().as_str(),
    );
    text_member(
        json,
        out,
        member!("feed_contact_email"),
        system.feed_contact_email().as_str(),
    );
    text_member(json, out, member!("timezone"), system.timezone().as_str());
}

/// Ends the feed `system_information` behind the last of its languages, with the system's further names.
pub fn close_information<W: Output>(
    json: &mut JsonState,
    out: &mut W,
    system: &System,
    names: &[MoreName],
) -> Result<(), WriteFault>
    requires array { IsTrue (takes_array_end json.old.top) }
    requires round { json.old.round ≡ in_list }
    ensures wrote { Wrote json.old json.new (W.contents out.old) (W.contents out.new)
        (information_end_text system.now names.now) }
    ensures place { IsAt json.new Level.Done [] }
    ensures outcome { is_ok result ≡ not json.new.failed }
{
    let _ = json.end_array(out);
    contact(json, out, system, names);
    let _ = json.end_object(out);
    json.end_object(out)
}
