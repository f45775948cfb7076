//! A JSON text and the writer that it goes to.

ghost use Rattle.std.specs.Prelude.{◌≡◌, ◌<◌, ◌++◌, ◌∷◌, [], IsTrue, length, true, not, is_ok};
ghost use Rattle.std.specs.Fmt.{signed_decimal};
ghost use Rattle.bike_fixed.specs.Text.{cents_text, micro_text};
ghost use Rattle.bike_json.specs.Escapes.{string_text};
ghost use Rattle.bike_json.specs.Tree.{comma, flag_text};
ghost use Rattle.bike_json.specs.State.{Wrote, WroteNext, IsAt, outset, takes_value, takes_name, takes_array_end};
ghost use Rattle.bike_json.specs.State.{has_more, after_value};

use crate::level::Level;
use crate::member::MemberName;
use crate::output::Output;
use crate::state::JsonState;
use bike_fixed::{Cents, Micro};
use bike_stream::WriteFault;
use std::marker::Model;

/// Writes one JSON text to the output that it holds, a token at a time and without memory.
///
/// A proof sees where the text stands (`place`) and what is known of the output (`contents`). Each
/// call is that of `JsonState`, and fails as that does.
#[derive(Drop)]
pub struct JsonWriter<W: Output + Drop> {
    state: JsonState,
    out: W,
}

impl<W: Output + Drop> Model for JsonWriter<W> {
    ghost use Rattle.bike_json.specs.State.{Text};

    ghost Value = { Text };

    ghost view = { λ w. record { place = w.state; contents = W.contents w.out } };
}

impl<W: Output + Drop> JsonWriter<W> {
    /// Nothing is written yet.
    pub fn new(out: W) -> JsonWriter<W>
        ensures place { result.place ≡ outset }
        ensures contents { result.contents ≡ W.contents out }
    {
        JsonWriter {
            state: JsonState::new(),
            out,
        }
    }

    /// How many bytes the calls wrote that succeeded.
    pub fn count(&self) -> u64
        ensures { result ≡ self.now.place.count }
    {
        self.state.count()
    }

    /// The output.
    pub fn into_inner(self) -> W
        ensures { W.contents result ≡ self.contents }
    {
        let JsonWriter { state: _, out } = self;
        out
    }

    /// Begins an object, as a value.
    pub fn begin_object(&mut self) -> Result<(), WriteFault>
        // A value may come here, and one level more has room.
        requires value { IsTrue (takes_value self.old.place.top) }
        requires room { length self.old.place.round < 16 }
        // What is written, and where the text then stands: in an empty object.
        ensures wrote { WroteNext self.old.place self.new.place self.old.contents self.new.contents (123 ∷ []) }
        ensures place { IsAt self.new.place Level.EmptyObject (after_value self.old.place.top ∷ self.old.place.round) }
        // A failure is told, and counts nothing.
        ensures count { self.new.place.failed ≡ true → self.new.place.count ≡ self.old.place.count }
        ensures outcome { is_ok result ≡ not self.new.place.failed }
    {
        self.state.begin_object(&mut self.out)
    }

    /// Ends the object that is open, where no name waits for its value.
    pub fn end_object(&mut self) -> Result<(), WriteFault>
        // The object that is open may end here.
        requires name { IsTrue (takes_name self.old.place.top) }
        requires round { 0 < length self.old.place.round }
        // What is written, and where the text then stands: behind the object.
        ensures wrote { Wrote self.old.place self.new.place self.old.contents self.new.contents (125 ∷ []) }
        ensures place { self.old.place.round ≡ self.new.place.top ∷ self.new.place.round }
        // A failure is told, and counts nothing.
        ensures count { self.new.place.failed ≡ true → self.new.place.count ≡ self.old.place.count }
        ensures outcome { is_ok result ≡ not self.new.place.failed }
    {
        self.state.end_object(&mut self.out)
    }

    /// Begins an array, as a value.
    pub fn begin_array(&mut self) -> Result<(), WriteFault>
        // A value may come here, and one level more has room.
        requires value { IsTrue (takes_value self.old.place.top) }
        requires room { length self.old.place.round < 16 }
        // What is written, and where the text then stands: in an empty array.
        ensures wrote { WroteNext self.old.place self.new.place self.old.contents self.new.contents (91 ∷ []) }
        ensures place { IsAt self.new.place Level.EmptyArray (after_value self.old.place.top ∷ self.old.place.round) }
        // A failure is told, and counts nothing.
        ensures count { self.new.place.failed ≡ true → self.new.place.count ≡ self.old.place.count }
        ensures outcome { is_ok result ≡ not self.new.place.failed }
    {
        self.state.begin_array(&mut self.out)
    }

    /// Ends the array that is open.
    pub fn end_array(&mut self) -> Result<(), WriteFault>
        // The array that is open may end here.
        requires array { IsTrue (takes_array_end self.old.place.top) }
        requires round { 0 < length self.old.place.round }
        // What is written, and where the text then stands: behind the array.
        ensures wrote { Wrote self.old.place self.new.place self.old.contents self.new.contents (93 ∷ []) }
        ensures place { self.old.place.round ≡ self.new.place.top ∷ self.new.place.round }
        // A failure is told, and counts nothing.
        ensures count { self.new.place.failed ≡ true → self.new.place.count ≡ self.old.place.count }
        ensures outcome { is_ok result ≡ not self.new.place.failed }
    {
        self.state.end_array(&mut self.out)
    }

    /// A member's name; its value comes next.
    pub fn name(&mut self, name: &str) -> Result<(), WriteFault>
        requires name { IsTrue (takes_name self.old.place.top) }
        ensures wrote { Wrote self.old.place self.new.place self.old.contents self.new.contents
            (comma (has_more self.old.place.top) ++ string_text name.now ++ 58 ∷ []) }
        ensures place { IsAt self.new.place Level.NamedObject self.old.place.round }
        ensures count { self.new.place.failed ≡ true → self.new.place.count ≡ self.old.place.count }
        ensures outcome { is_ok result ≡ not self.new.place.failed }
    {
        self.state.name(&mut self.out, name)
    }

    /// A member's name that is known beforehand; its value comes next.
    pub fn member(&mut self, name: MemberName) -> Result<(), WriteFault>
        requires { IsTrue (takes_name self.old.place.top) }
        ensures wrote { Wrote self.old.place self.new.place self.old.contents self.new.contents
            (comma (has_more self.old.place.top) ++ string_text name.plain.now ++ 58 ∷ []) }
        ensures place { IsAt self.new.place Level.NamedObject self.old.place.round }
        ensures count { self.new.place.failed ≡ true → self.new.place.count ≡ self.old.place.count }
        ensures outcome { is_ok result ≡ not self.new.place.failed }
    {
        self.state.member(&mut self.out, name)
    }

    /// A string.
    pub fn text(&mut self, text: &str) -> Result<(), WriteFault>
        requires { IsTrue (takes_value self.old.place.top) }
        ensures wrote { WroteNext self.old.place self.new.place self.old.contents self.new.contents
            (string_text text.now) }
        ensures place { IsAt self.new.place (after_value self.old.place.top) self.old.place.round }
        ensures count { self.new.place.failed ≡ true → self.new.place.count ≡ self.old.place.count }
        ensures outcome { is_ok result ≡ not self.new.place.failed }
    {
        self.state.text(&mut self.out, text)
    }

    /// A whole number, with a `-` exactly below zero and no leading zero.
    pub fn whole(&mut self, number: i64) -> Result<(), WriteFault>
        requires { IsTrue (takes_value self.old.place.top) }
        ensures wrote { WroteNext self.old.place self.new.place self.old.contents self.new.contents
            (signed_decimal number) }
        ensures place { IsAt self.new.place (after_value self.old.place.top) self.old.place.round }
        ensures count { self.new.place.failed ≡ true → self.new.place.count ≡ self.old.place.count }
        ensures outcome { is_ok result ≡ not self.new.place.failed }
    {
        self.state.whole(&mut self.out, number)
    }

    /// An amount, in units with two decimals.
    pub fn cents(&mut self, amount: Cents) -> Result<(), WriteFault>
        requires { IsTrue (takes_value self.old.place.top) }
        ensures wrote { WroteNext self.old.place self.new.place self.old.contents self.new.contents
            (cents_text amount) }
        ensures place { IsAt self.new.place (after_value self.old.place.top) self.old.place.round }
        ensures count { self.new.place.failed ≡ true → self.new.place.count ≡ self.old.place.count }
        ensures outcome { is_ok result ≡ not self.new.place.failed }
    {
        self.state.cents(&mut self.out, amount)
    }

    /// A coordinate, in degrees with six decimals.
    pub fn micro(&mut self, coordinate: Micro) -> Result<(), WriteFault>
        requires { IsTrue (takes_value self.old.place.top) }
        ensures wrote { WroteNext self.old.place self.new.place self.old.contents self.new.contents
            (micro_text coordinate) }
        ensures place { IsAt self.new.place (after_value self.old.place.top) self.old.place.round }
        ensures count { self.new.place.failed ≡ true → self.new.place.count ≡ self.old.place.count }
        ensures outcome { is_ok result ≡ not self.new.place.failed }
    {
        self.state.micro(&mut self.out, coordinate)
    }

    /// `true` or `false`.
    pub fn flag(&mut self, flag: bool) -> Result<(), WriteFault>
        requires { IsTrue (takes_value self.old.place.top) }
        ensures wrote { WroteNext self.old.place self.new.place self.old.contents self.new.contents (flag_text flag) }
        ensures place { IsAt self.new.place (after_value self.old.place.top) self.old.place.round }
        ensures count { self.new.place.failed ≡ true → self.new.place.count ≡ self.old.place.count }
        ensures outcome { is_ok result ≡ not self.new.place.failed }
    {
        self.state.flag(&mut self.out, flag)
    }
}
