//! Where a JSON text stands, and the calls that write it.

ghost use Rattle.std.specs.Prelude.{◌≡◌, ◌<◌, ◌++◌, ◌∷◌, [], IsTrue, length, true, not, is_ok, cond};
ghost use Rattle.std.specs.Fmt.{signed_decimal};
ghost use Rattle.bike_fixed.specs.Text.{cents_text, micro_text};
ghost use Rattle.bike_json.specs.Escapes.{json_escapes, string_text};
ghost use Rattle.bike_json.specs.Tree.{comma, flag_text};
ghost use Rattle.bike_json.specs.State.{Wrote, WroteNext, IsAt, outset, takes_value, takes_name, takes_array_end};
ghost use Rattle.bike_json.specs.State.{has_more, after_value};

use crate::escape::{STRING_ROOM, escape, quote};
use crate::level::Level;
use crate::member::MemberName;
use crate::output::Output;
use bike_fixed::{Cents, Micro};
use bike_stream::WriteFault;
use std::marker::Model;

/// How many arrays and objects may be open at once.
const MOST_LEVELS: usize = 16;

/// Where a JSON text stands; takes no memory.
///
/// Each call writes its part to the output that it is given, which is to be the same one for one text. It fails
/// where the output refuses bytes or the count would pass a `u64`, and for no other reason; every later call
/// fails too and writes nothing. The levels go on as if the calls had succeeded, so a caller may ask for the
/// outcome once, at the end.
#[derive(Drop)]
pub struct JsonState {
    top: Level,
    round: [Level; MOST_LEVELS],
    depth: usize,
    failed: bool,
    count: u64,
}

impl Model for JsonState {
    ghost use Rattle.std.specs.Prelude.{◌≤◌};
    ghost use Rattle.bike_json.specs.State.{Place, enclosing};

    ghost Value = { Place };

    ghost view = { λ j. record { top = j.top; round = enclosing j.round j.depth; failed = j.failed; count = j.count } };

    ghost invariant = { λ j. j.depth ≤ 16 };
}

impl JsonState {
    /// Nothing is written yet.
    pub fn new() -> JsonState
        ensures { result ≡ outset }
    {
        JsonState {
            top: Level::Start,
            round: [Level::Start; MOST_LEVELS],
            depth: 0,
            failed: false,
            count: 0,
        }
    }

    /// How many bytes the calls wrote that succeeded.
    pub fn count(&self) -> u64
        ensures { result ≡ self.now.count }
    {
        self.count
    }

    /// Fails where a write failed, now or before.
    pub fn outcome(&self) -> Result<(), WriteFault>
        ensures { is_ok result ≡ not self.now.failed }
    {
        if self.failed { Err(WriteFault) } else { Ok(()) }
    }

    /// Begins an object, as a value.
    pub fn begin_object<W: Output>(&mut self, out: &mut W) -> Result<(), WriteFault>
        // A value may come here, and one level more has room.
        requires value { IsTrue (takes_value self.old.top) }
        requires room { length self.old.round < 16 }
        // What is written, and where the text then stands: in an empty object.
        ensures wrote { WroteNext self.old self.new (W.contents out.old) (W.contents out.new) (123 ∷ []) }
        ensures place { IsAt self.new Level.EmptyObject (after_value self.old.top ∷ self.old.round) }
        // A failure is told, and counts nothing.
        ensures count { self.new.failed ≡ true → self.new.count ≡ self.old.count }
        ensures outcome { is_ok result ≡ not self.new.failed }
    {
        self.begin(out, b"{", Level::EmptyObject)
    }

    /// Ends the object that is open, where no name waits for its value.
    pub fn end_object<W: Output>(&mut self, out: &mut W) -> Result<(), WriteFault>
        // The object that is open may end here.
        requires name { IsTrue (takes_name self.old.top) }
        requires round { 0 < length self.old.round }
        // What is written, and where the text then stands: behind the object.
        ensures wrote { Wrote self.old self.new (W.contents out.old) (W.contents out.new) (125 ∷ []) }
        ensures place { self.old.round ≡ self.new.top ∷ self.new.round }
        // A failure is told, and counts nothing.
        ensures count { self.new.failed ≡ true → self.new.count ≡ self.old.count }
        ensures outcome { is_ok result ≡ not self.new.failed }
    {
        self.end(out, b"}")
    }

    /// Begins an array, as a value.
    pub fn begin_array<W: Output>(&mut self, out: &mut W) -> Result<(), WriteFault>
        // A value may come here, and one level more has room.
        requires value { IsTrue (takes_value self.old.top) }
        requires room { length self.old.round < 16 }
        // What is written, and where the text then stands: in an empty array.
        ensures wrote { WroteNext self.old self.new (W.contents out.old) (W.contents out.new) (91 ∷ []) }
        ensures place { IsAt self.new Level.EmptyArray (after_value self.old.top ∷ self.old.round) }
        // A failure is told, and counts nothing.
        ensures count { self.new.failed ≡ true → self.new.count ≡ self.old.count }
        ensures outcome { is_ok result ≡ not self.new.failed }
    {
        self.begin(out, b"[", Level::EmptyArray)
    }

    /// Ends the array that is open.
    pub fn end_array<W: Output>(&mut self, out: &mut W) -> Result<(), WriteFault>
        // The array that is open may end here.
        requires array { IsTrue (takes_array_end self.old.top) }
        requires round { 0 < length self.old.round }
        // What is written, and where the text then stands: behind the array.
        ensures wrote { Wrote self.old self.new (W.contents out.old) (W.contents out.new) (93 ∷ []) }
        ensures place { self.old.round ≡ self.new.top ∷ self.new.round }
        // A failure is told, and counts nothing.
        ensures count { self.new.failed ≡ true → self.new.count ≡ self.old.count }
        ensures outcome { is_ok result ≡ not self.new.failed }
    {
        self.end(out, b"]")
    }

    /// A member's name; its value comes next.
    pub fn name<W: Output>(&mut self, out: &mut W, name: &str) -> Result<(), WriteFault>
        requires name { IsTrue (takes_name self.old.top) }
        ensures wrote { Wrote self.old self.new (W.contents out.old) (W.contents out.new)
            (comma (has_more self.old.top) ++ string_text name.now ++ 58 ∷ []) }
        ensures place { IsAt self.new Level.NamedObject self.old.round }
        ensures count { self.new.failed ≡ true → self.new.count ≡ self.old.count }
        ensures outcome { is_ok result ≡ not self.new.failed }
    {
        let before = self.count;
        self.separate(out);
        self.put_string(out, name.as_bytes());
        self.emit(out, b":");
        self.top = Level::NamedObject;
        self.settle(before)
    }

    /// A member's name that is known beforehand; its value comes next.
    pub fn member<W: Output>(&mut self, out: &mut W, name: MemberName) -> Result<(), WriteFault>
        requires { IsTrue (takes_name self.old.top) }
        ensures wrote { Wrote self.old self.new (W.contents out.old) (W.contents out.new)
            (comma (has_more self.old.top) ++ string_text name.plain.now ++ 58 ∷ []) }
        ensures place { IsAt self.new Level.NamedObject self.old.round }
        ensures count { self.new.failed ≡ true → self.new.count ≡ self.old.count }
        ensures outcome { is_ok result ≡ not self.new.failed }
    {
        let before = self.count;
        self.put_name(out, name);
        self.top = Level::NamedObject;
        self.settle(before)
    }

    /// A string.
    pub fn text<W: Output>(&mut self, out: &mut W, text: &str) -> Result<(), WriteFault>
        requires { IsTrue (takes_value self.old.top) }
        ensures wrote { WroteNext self.old self.new (W.contents out.old) (W.contents out.new) (string_text text.now) }
        ensures place { IsAt self.new (after_value self.old.top) self.old.round }
        ensures count { self.new.failed ≡ true → self.new.count ≡ self.old.count }
        ensures outcome { is_ok result ≡ not self.new.failed }
    {
        let before = self.count;
        self.separate(out);
        self.put_string(out, text.as_bytes());
        self.end_value();
        self.settle(before)
    }

    /// A whole number, with a `-` exactly below zero and no leading zero.
    pub fn whole<W: Output>(&mut self, out: &mut W, number: i64) -> Result<(), WriteFault>
        requires { IsTrue (takes_value self.old.top) }
        ensures wrote { WroteNext self.old self.new (W.contents out.old) (W.contents out.new) (signed_decimal number) }
        ensures place { IsAt self.new (after_value self.old.top) self.old.round }
        ensures count { self.new.failed ≡ true → self.new.count ≡ self.old.count }
        ensures outcome { is_ok result ≡ not self.new.failed }
    {
        let mut buffer = itoa::Buffer::new();
        let text = buffer.format(number);
        self.scalar(out, text)
    }

    /// An amount, in units with two decimals.
    pub fn cents<W: Output>(&mut self, out: &mut W, amount: Cents) -> Result<(), WriteFault>
        requires { IsTrue (takes_value self.old.top) }
        ensures wrote { WroteNext self.old self.new (W.contents out.old) (W.contents out.new) (cents_text amount) }
        ensures place { IsAt self.new (after_value self.old.top) self.old.round }
        ensures count { self.new.failed ≡ true → self.new.count ≡ self.old.count }
        ensures outcome { is_ok result ≡ not self.new.failed }
    {
        let text = amount.text();
        self.scalar(out, text.as_str())
    }

    /// A coordinate, in degrees with six decimals.
    pub fn micro<W: Output>(&mut self, out: &mut W, coordinate: Micro) -> Result<(), WriteFault>
        requires { IsTrue (takes_value self.old.top) }
        ensures wrote { WroteNext self.old self.new (W.contents out.old) (W.contents out.new) (micro_text coordinate) }
        ensures place { IsAt self.new (after_value self.old.top) self.old.round }
        ensures count { self.new.failed ≡ true → self.new.count ≡ self.old.count }
        ensures outcome { is_ok result ≡ not self.new.failed }
    {
        let text = coordinate.text();
        self.scalar(out, text.as_str())
    }

    /// `true` or `false`.
    pub fn flag<W: Output>(&mut self, out: &mut W, flag: bool) -> Result<(), WriteFault>
        requires { IsTrue (takes_value self.old.top) }
        ensures wrote { WroteNext self.old self.new (W.contents out.old) (W.contents out.new) (flag_text flag) }
        ensures place { IsAt self.new (after_value self.old.top) self.old.round }
        ensures count { self.new.failed ≡ true → self.new.count ≡ self.old.count }
        ensures outcome { is_ok result ≡ not self.new.failed }
    {
        self.scalar(out, if flag { "true" } else { "false" })
    }

    /// A value whose text needs no quotation marks.
    fn scalar<W: Output>(&mut self, out: &mut W, text: &str) -> Result<(), WriteFault>
        ensures wrote { WroteNext self.old self.new (W.contents out.old) (W.contents out.new) text.now }
        ensures place { IsAt self.new (after_value self.old.top) self.old.round }
        ensures count { self.new.failed ≡ true → self.new.count ≡ self.old.count }
        ensures outcome { is_ok result ≡ not self.new.failed }
    {
        let before = self.count;
        self.separate(out);
        self.emit(out, text.as_bytes());
        self.end_value();
        self.settle(before)
    }

    fn begin<W: Output>(&mut self, out: &mut W, token: &[u8], top: Level) -> Result<(), WriteFault>
        requires { length self.old.round < 16 }
        ensures wrote { WroteNext self.old self.new (W.contents out.old) (W.contents out.new) token.now }
        ensures place { IsAt self.new top (after_value self.old.top ∷ self.old.round) }
        ensures count { self.new.failed ≡ true → self.new.count ≡ self.old.count }
        ensures outcome { is_ok result ≡ not self.new.failed }
    {
        let before = self.count;
        self.separate(out);
        self.emit(out, token);
        self.end_value();
        self.open(top);
        self.settle(before)
    }

    fn end<W: Output>(&mut self, out: &mut W, token: &[u8]) -> Result<(), WriteFault>
        requires { 0 < length self.old.round }
        ensures wrote { Wrote self.old self.new (W.contents out.old) (W.contents out.new) token.now }
        ensures place { self.old.round ≡ self.new.top ∷ self.new.round }
        ensures count { self.new.failed ≡ true → self.new.count ≡ self.old.count }
        ensures outcome { is_ok result ≡ not self.new.failed }
    {
        let before = self.count;
        self.emit(out, token);
        self.close();
        self.settle(before)
    }

    /// The comma before a part that isn't the first.
    fn separate<W: Output>(&mut self, out: &mut W)
        ensures wrote { Wrote self.old self.new (W.contents out.old) (W.contents out.new)
            (comma (has_more self.old.top)) }
        ensures place { IsAt self.new self.old.top self.old.round }
    {
        match self.top {
            Level::FilledArray | Level::FilledObject => self.emit(out, b","),
            _ => {}
        }
    }

    /// The name and its colon, behind the comma of a part that isn't the first.
    fn put_name<W: Output>(&mut self, out: &mut W, name: MemberName)
        requires { IsTrue (takes_name self.old.top) }
        ensures wrote { WroteNext self.old self.new (W.contents out.old) (W.contents out.new)
            (string_text name.plain.now ++ 58 ∷ []) }
        ensures place { IsAt self.new self.old.top self.old.round }
    {
        let text = name.text.as_bytes();
        match self.top {
            Level::FilledObject => self.emit(out, text),
            _ => self.emit(out, &text[1..]),
        }
    }

    /// The string of a text: nearly always one piece.
    fn put_string<W: Output>(&mut self, out: &mut W, text: &[u8])
        ensures wrote { Wrote self.old self.new (W.contents out.old) (W.contents out.new) (string_text text.now) }
        ensures place { IsAt self.new self.old.top self.old.round }
    {
        let mut buf = [0u8; STRING_ROOM];
        let length = quote(text, &mut buf);
        if length > 0 {
            self.emit(out, &buf[..length]);
            return;
        }
        self.emit(out, b"\"");
        self.escaped_runs(out, text);
        self.emit(out, b"\"");
    }

    /// The bytes with their escapes, in as few runs as there are. Hardly a text needs this, so it is no part of the
    /// function above, which is inlined.
    #[inline(never)]
    fn escaped_runs<W: Output>(&mut self, out: &mut W, bytes: &[u8])
        ensures wrote { Wrote self.old self.new (W.contents out.old) (W.contents out.new) (json_escapes bytes.now) }
        ensures place { IsAt self.new self.old.top self.old.round }
    {
        let mut buf = [0u8; 6];
        let mut start = 0;
        for i in 0..bytes.len() {
            let n = escape(bytes[i], &mut buf);
            if n > 0 {
                self.emit(out, &bytes[start..i]);
                self.emit(out, &buf[..n]);
                start = i + 1;
            }
        }
        self.emit(out, &bytes[start..]);
    }

    /// Writes bytes, unless a write failed before or the count would pass a `u64`.
    fn emit<W: Output>(&mut self, out: &mut W, bytes: &[u8])
        ensures wrote { Wrote self.old self.new (W.contents out.old) (W.contents out.new) bytes.now }
        ensures place { IsAt self.new self.old.top self.old.round }
    {
        let length = bytes.len() as u64;
        if self.failed || length > u64::MAX - self.count {
            self.failed = true;
            return;
        }
        match out.put(bytes) {
            Ok(()) => self.count += length,
            Err(_) => self.failed = true,
        }
    }

    /// A call's end: the count of a call that failed is what it was before.
    fn settle(&mut self, before: u64) -> Result<(), WriteFault>
        ensures failed { self.new.failed ≡ self.old.failed }
        ensures count { self.new.count ≡ cond self.old.failed before self.old.count }
        ensures place { IsAt self.new self.old.top self.old.round }
        ensures outcome { is_ok result ≡ not self.new.failed }
    {
        if self.failed {
            self.count = before;
        }
        self.outcome()
    }

    fn end_value(&mut self)
        ensures failed { self.new.failed ≡ self.old.failed }
        ensures count { self.new.count ≡ self.old.count }
        ensures place { IsAt self.new (after_value self.old.top) self.old.round }
    {
        self.top = match self.top {
            Level::Start | Level::Done => Level::Done,
            Level::EmptyArray | Level::FilledArray => Level::FilledArray,
            Level::EmptyObject | Level::FilledObject | Level::NamedObject => Level::FilledObject,
        };
    }

    fn open(&mut self, top: Level)
        requires { length self.old.round < 16 }
        ensures failed { self.new.failed ≡ self.old.failed }
        ensures count { self.new.count ≡ self.old.count }
        ensures place { IsAt self.new top (self.old.top ∷ self.old.round) }
    {
        self.round[self.depth] = self.top;
        self.depth += 1;
        self.top = top;
    }

    fn close(&mut self)
        requires { 0 < length self.old.round }
        ensures failed { self.new.failed ≡ self.old.failed }
        ensures count { self.new.count ≡ self.old.count }
        ensures place { self.old.round ≡ self.new.top ∷ self.new.round }
    {
        self.depth -= 1;
        self.top = self.round[self.depth];
    }
}
