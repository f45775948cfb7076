//! Members of objects, each written with its name.

ghost use Rattle.std.specs.Prelude.{◌≡◌, ◌<◌, ◌≤◌, ◌+◌, ◌∷◌, IsTrue, length, false, pos};
ghost use Rattle.bike_catalogue.specs.Rows.{more_name_of_fields};
ghost use Rattle.bike_json.specs.Rows.{items};
ghost use Rattle.bike_json.specs.Tree.{text, whole, cents, micro, flag, items_text};
ghost use Rattle.bike_json.specs.State.{IsAt, Wrote, takes_name, takes_value, takes_array_end, after_value};
ghost use Rattle.bike_feed_texts.specs.Elements.{localized_text, moment_tree, translation};
ghost use Rattle.bike_feed_texts.specs.Writing.{WroteMember, WroteValue};

use bike_catalogue::{MoreName, System};
use bike_fields::{Language, Name};
use bike_fixed::{Cents, Micro, Moment};
use bike_json::{JsonState, Level, MemberName, Output, member};

/// A text.
pub(crate) fn text_member<W: Output>(
    json: &mut JsonState,
    out: &mut W,
    name: MemberName,
    value: &str,
)
    requires { IsTrue (takes_name json.old.top) }
    ensures wrote { WroteMember json.old json.new (W.contents out.old) (W.contents out.new) name.plain.now
        (text value.now) }
    ensures place { IsAt json.new Level.FilledObject json.old.round }
{
    let _ = json.member(out, name);
    let _ = json.text(out, value);
}

/// A whole number.
pub(crate) fn whole_member<W: Output>(
    json: &mut JsonState,
    out: &mut W,
    name: MemberName,
    number: u32,
)
    requires { IsTrue (takes_name json.old.top) }
    ensures wrote { WroteMember json.old json.new (W.contents out.old) (W.contents out.new) name.plain.now
        (whole (pos number)) }
    ensures place { IsAt json.new Level.FilledObject json.old.round }
{
    let _ = json.member(out, name);
    let _ = json.whole(out, i64::from(number));
}

/// An amount, in units with two decimals.
pub(crate) fn cents_member<W: Output>(
    json: &mut JsonState,
    out: &mut W,
    name: MemberName,
    amount: Cents,
)
    requires { IsTrue (takes_name json.old.top) }
    ensures wrote { WroteMember json.old json.new (W.contents out.old) (W.contents out.new) name.plain.now
        (cents amount) }
    ensures place { IsAt json.new Level.FilledObject json.old.round }
{
    let _ = json.member(out, name);
    let _ = json.cents(out, amount);
}

/// A coordinate, in degrees with six decimals.
pub(crate) fn micro_member<W: Output>(
    json: &mut JsonState,
    out: &mut W,
    name: MemberName,
    coordinate: Micro,
)
    requires { IsTrue (takes_name json.old.top) }
    ensures wrote { WroteMember json.old json.new (W.contents out.old) (W.contents out.new) name.plain.now
        (micro coordinate) }
    ensures place { IsAt json.new Level.FilledObject json.old.round }
{
    let _ = json.member(out, name);
    let _ = json.micro(out, coordinate);
}

/// `true` or `false`.
pub(crate) fn flag_member<W: Output>(
    json: &mut JsonState,
    out: &mut W,
    name: MemberName,
    value: bool,
)
    requires { IsTrue (takes_name json.old.top) }
    ensures wrote { WroteMember json.old json.new (W.contents out.old) (W.contents out.new) name.plain.now
        (flag value) }
    ensures place { IsAt json.new Level.FilledObject json.old.round }
{
    let _ = json.member(out, name);
    let _ = json.flag(out, value);
}

/// A moment, as RFC 3339 writes it.
pub(crate) fn moment_member<W: Output>(
    json: &mut JsonState,
    out: &mut W,
    name: MemberName,
    moment: Moment,
)
    requires { IsTrue (takes_name json.old.top) }
    ensures wrote { WroteMember json.old json.new (W.contents out.old) (W.contents out.new) name.plain.now
        (moment_tree moment) }
    ensures place { IsAt json.new Level.FilledObject json.old.round }
{
    let text = moment.text();
    text_member(json, out, name, text.as_str());
}

/// A text with its language, as an object.
fn write_translation<W: Output>(
    json: &mut JsonState,
    out: &mut W,
    language: &Language,
    value: &Name,
)
    requires value { IsTrue (takes_value json.old.top) }
    requires room { length json.old.round < 16 }
    ensures wrote { WroteValue json.old json.new (W.contents out.old) (W.contents out.new)
        (translation (more_name_of_fields language.now value.now)) }
    ensures place { IsAt json.new (after_value json.old.top) json.old.round }
{
    let _ = json.begin_object(out);
    text_member(json, out, member!("text"), value.as_str());
    text_member(json, out, member!("language"), language.as_str());
    let _ = json.end_object(out);
}

/// A text with its language and then each further one, as items.
fn write_translations<W: Output>(
    json: &mut JsonState,
    out: &mut W,
    language: &Language,
    value: &Name,
    names: &[MoreName],
)
    requires top { json.old.top ≡ Level.EmptyArray }
    requires room { length json.old.round < 16 }
    ensures wrote { Wrote json.old json.new (W.contents out.old) (W.contents out.new)
        (items_text false (items translation (more_name_of_fields language.now value.now ∷ names.now))) }
    ensures place { IsTrue (takes_array_end json.new.top) × (json.new.round ≡ json.old.round) }
{
    write_translation(json, out, language, value);
    for more in names {
        write_translation(json, out, more.language(), more.name());
    }
}

/// A localized text, in the system's language and then in each further one.
pub(crate) fn localized_member<W: Output>(
    json: &mut JsonState,
    out: &mut W,
    name: MemberName,
    system: &System,
    value: &Name,
    names: &[MoreName],
)
    requires name { IsTrue (takes_name json.old.top) }
    requires room { length json.old.round < 15 }
    ensures wrote { WroteMember json.old json.new (W.contents out.old) (W.contents out.new) name.plain.now
        (localized_text system.now value.now names.now) }
    ensures place { IsAt json.new Level.FilledObject json.old.round }
{
    let own = system.language();
    let _ = json.member(out, name);
    let _ = json.begin_array(out);
    write_translations(json, out, own, value, names);
    let _ = json.end_array(out);
}
