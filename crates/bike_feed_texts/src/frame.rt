//! What stands round the elements of a feed.

ghost use Rattle.std.specs.Prelude.{◌≡◌, ◌∷◌, ◌++◌, [], IsTrue, is_ok, not};
ghost use Rattle.bike_json.specs.State.{IsAt, Wrote, takes_array_end};
ghost use Rattle.bike_feed_texts.specs.Writing.{head_text, list_head_text, list_end_text, in_feed, in_list};

use crate::members::{moment_member, text_member, whole_member};
use bike_catalogue::System;
use bike_fixed::Moment;
use bike_json::{JsonState, Level, MemberName, Output, member};
use bike_stream::WriteFault;

/// Begins a feed, up to its data.
pub(crate) fn open_feed<W: Output>(
    json: &mut JsonState,
    out: &mut W,
    system: &System,
    moment: Moment,
)
    requires { IsAt json.old Level.Start [] }
    ensures wrote { Wrote json.old json.new (W.contents out.old) (W.contents out.new) (head_text system.now moment) }
    ensures place { IsAt json.new Level.NamedObject (Level.Done ∷ []) }
{
    let _ = json.begin_object(out);
    moment_member(json, out, member!("last_updated"), moment);
    whole_member(json, out, member!("ttl"), system.ttl().get());
    text_member(json, out, member!("version"), "3.0");
    let _ = json.member(out, member!("data"));
}

/// Begins the feed of a system for a moment whose data are a list of that name (`vehicle_types`, `stations`, `plans` or
/// `regions`), up to the list's first element.
pub fn open_list<W: Output>(
    json: &mut JsonState,
    out: &mut W,
    system: &System,
    moment: Moment,
    name: MemberName,
) -> Result<(), WriteFault>
    requires { IsAt json.old Level.Start [] }
    ensures wrote { Wrote json.old json.new (W.contents out.old) (W.contents out.new)
        (list_head_text system.now moment name.plain.now) }
    ensures place { IsAt json.new Level.EmptyArray in_list }
    ensures outcome { is_ok result ≡ not json.new.failed }
{
    open_feed(json, out, system, moment);
    let _ = json.begin_object(out);
    let _ = json.member(out, name);
    json.begin_array(out)
}

/// Ends a feed behind the last element of its list.
pub fn close_list<W: Output>(json: &mut JsonState, out: &mut W) -> Result<(), WriteFault>
    requires array { IsTrue (takes_array_end json.old.top) }
    requires round { json.old.round ≡ in_list }
    ensures wrote { Wrote json.old json.new (W.contents out.old) (W.contents out.new) list_end_text }
    ensures place { IsAt json.new Level.Done [] }
    ensures outcome { is_ok result ≡ not json.new.failed }
{
    let _ = json.end_array(out);
    let _ = json.end_object(out);
    json.end_object(out)
}
