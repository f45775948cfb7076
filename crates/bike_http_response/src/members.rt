//! JSON objects of named scalars.

ghost use Rattle.std.specs.Prelude.{◌≡◌, ◌<◌, ◌++◌, IsTrue, length, map, pos};
ghost use Rattle.bike_json.specs.State.{Wrote, WroteNext, IsAt, takes_value, takes_name, has_more, after_value};
ghost use Rattle.bike_json.specs.Tree.{text_of, object};
ghost use Rattle.bike_http_response.specs.Bodies.{scalar_tree, member_text, members};

use bike_fixed::Within;
use bike_json::{JsonState, Level, MemberName, Output};

/// The value of a member.
#[derive(Clone, Copy)]
pub(crate) enum Scalar<'a> {
    /// A string.
    Text(&'a str),
    /// A whole number.
    Whole(i64),
    /// `true` or `false`.
    Flag(bool),
}

/// A number of a range, as a value.
pub(crate) fn whole<const LO: u32, const HI: u32, K>(number: Within<LO, HI, K>) -> Scalar<'static>
    ensures { result ≡ Scalar.Whole (pos number) }
{
    Scalar::Whole(i64::from(number.get()))
}

/// A number with a sign, as a value.
pub(crate) fn signed(number: i64) -> Scalar<'static>
    ensures { result ≡ Scalar.Whole number }
{
    Scalar::Whole(number)
}

fn write_scalar<W: Output>(json: &mut JsonState, out: &mut W, scalar: Scalar)
    requires { IsTrue (takes_value json.old.top) }
    ensures wrote { WroteNext json.old json.new (W.contents out.old) (W.contents out.new)
        (text_of (scalar_tree scalar.entry)) }
    ensures place { IsAt json.new (after_value json.old.top) json.old.round }
{
    let _ = match scalar {
        Scalar::Text(text) => json.text(out, text),
        Scalar::Whole(number) => json.whole(out, number),
        Scalar::Flag(flag) => json.flag(out, flag),
    };
}

fn write_member<W: Output>(json: &mut JsonState, out: &mut W, name: MemberName, value: Scalar)
    requires { IsTrue (takes_name json.old.top) }
    ensures wrote { Wrote json.old json.new (W.contents out.old) (W.contents out.new)
        (member_text (has_more json.old.top) name.plain.now (scalar_tree value.entry)) }
    ensures place { IsAt json.new Level.FilledObject json.old.round }
{
    let _ = json.member(out, name);
    write_scalar(json, out, value);
}

/// Writes an object of these members, in this order, and of those behind them.
pub(crate) fn write_object<W: Output>(
    json: &mut JsonState,
    out: &mut W,
    fields: &[(MemberName, Scalar)],
    behind: &[(MemberName, Scalar)],
)
    requires value { IsTrue (takes_value json.old.top) }
    requires room { length json.old.round < 16 }
    ensures wrote { WroteNext json.old json.new (W.contents out.old) (W.contents out.new)
        (text_of (object (members (map (λ m. (m.0.plain.now, scalar_tree m.1)) (fields.now ++ behind.now))))) }
    ensures place { IsAt json.new (after_value json.old.top) json.old.round }
{
    let _ = json.begin_object(out);
    for field in fields {
        write_member(json, out, field.0, field.1);
    }
    for last in behind {
        write_member(json, out, last.0, last.1);
    }
    let _ = json.end_object(out);
}
