//! Names and ASCII fields, in which a backslash, a TAB, an LF and a CR are written `\\`, `\t`, `\n` and `\r`.

ghost use Rattle.std.specs.Prelude.{◌≡◌, true, IfSome, IfNone, Some, None};
ghost use Rattle.bike_fields.specs.Bytes.{is_name, is_ascii_field};
ghost use Rattle.bike_fields.specs.Reads.{Gives};
ghost use Rattle.bike_texts.specs.Reading.{at_most};
ghost use Rattle.bike_texts.specs.Escapes.{meant_by, is_break, unescape, name_at, ascii_at};

use arrayvec::{ArrayString, ArrayVec};
use bike_fields::{Ascii, LONGEST_ASCII, LONGEST_NAME, Name};

/// No name and no ASCII field has more bytes.
const MOST_BYTES: usize = LONGEST_ASCII;

/// A name or a description, before it has memory of its own.
pub type NameText = ArrayString<LONGEST_NAME>;

/// An ASCII field, before it has memory of its own.
pub type AsciiText = ArrayString<LONGEST_ASCII>;

/// The byte for which a letter behind a backslash stands.
fn meant_by(letter: u8) -> Option<u8>
    ensures { result ≡ meant_by letter }
{
    match letter {
        b'\\' => Some(b'\\'),
        b't' => Some(b'\t'),
        b'n' => Some(b'\n'),
        b'r' => Some(b'\r'),
        _ => None,
    }
}

/// Whether it is a byte that never stands for itself.
fn is_break(b: u8) -> bool
    ensures { result ≡ is_break b }
{
    b == b'\t' || b == b'\n' || b == b'\r'
}

/// The bytes that are escaped in the text. None where it has none, or more than any name or ASCII field.
fn unescape(text: &[u8]) -> Option<ArrayVec<u8, MOST_BYTES>>
    ensures read { IfSome result (λ bytes. unescape text.now ≡ Some bytes.items) }
    ensures none { IfNone result (at_most MOST_BYTES (unescape text.now) ≡ None) }
{
    let mut out: ArrayVec<u8, MOST_BYTES> = ArrayVec::new();
    let mut behind = false;
    for b in text {
        let b = *b;
        if behind {
            let meant = meant_by(b)?;
            if out.is_full() {
                return None;
            }
            out.push(meant);
            behind = false;
        } else if b == b'\\' {
            behind = true;
        } else if is_break(b) {
            return None;
        } else if out.is_full() {
            return None;
        } else {
            out.push(b);
        }
    }
    if behind {
        return None;
    }
    Some(out)
}

/// A copy of the name that needs no memory.
#[tactic(auto, using(crate::proofs::Unescaping::name_length))]
fn copy_name(name: &str) -> NameText
    requires { is_name name.now ≡ true }
    ensures { result.bytes ≡ name.now }
{
    let mut copy = ArrayString::new();
    copy.push_str(name);
    copy
}

/// A copy of the ASCII field that needs no memory.
#[tactic(auto, using(crate::proofs::Unescaping::ascii_length))]
fn copy_ascii(field: &str) -> AsciiText
    requires { is_ascii_field field.now ≡ true }
    ensures { result.bytes ≡ field.now }
{
    let mut copy = ArrayString::new();
    copy.push_str(field);
    copy
}

/// The name that is escaped in the text.
#[tactic(auto, unfolding(crate::specs::Escapes::name_at))]
pub fn read_name(text: &str) -> Option<NameText>
    ensures read { Gives (λ name. name.bytes) result (name_at text.now) }
    ensures good { IfSome result (λ name. is_name name.bytes ≡ true) }
{
    let bytes = unescape(text.as_bytes())?;
    let Ok(name) = str::from_utf8(bytes.as_slice()) else {
        return None;
    };
    Some(copy_name(Name::checked(name)?))
}

/// The ASCII field that is escaped in the text.
#[tactic(auto, unfolding(crate::specs::Escapes::ascii_at))]
pub fn read_ascii(text: &str) -> Option<AsciiText>
    ensures read { Gives (λ ascii. ascii.bytes) result (ascii_at text.now) }
    ensures good { IfSome result (λ ascii. is_ascii_field ascii.bytes ≡ true) }
{
    let bytes = unescape(text.as_bytes())?;
    let Ok(field) = str::from_utf8(bytes.as_slice()) else {
        return None;
    };
    Some(copy_ascii(Ascii::checked(field)?))
}
