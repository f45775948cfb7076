//! Writing a line in pieces, which takes no memory. Where a piece can't be written, nothing behind it is.

ghost use Rattle.std.specs.Prelude.{◌++◌, take};
ghost use Rattle.std.specs.Fmt.{decimal};
ghost use Rattle.sqlite_value.specs.declared.value.Value.TheVariants.{Text};
ghost use Rattle.sqlite_value.specs.Value.{owned};
ghost use Rattle.sqlite_value.specs.Order.{column};
ghost use Rattle.bike_judges.specs.Judging.{key_row};
ghost use Rattle.bike_console.specs.Pieces.{Puts, bar, value_text, key_text};

use bike_json::Output;
use bike_judges::BadKey;
use itoa::Buffer;
use sqlite::Row;
use sqlite::types::ValueRef;

/// Writes a piece of a line where all before it are written, as `going` says, and says whether now all are. Where the
/// output refuses bytes a front of the piece is written, and not all.
pub fn put<W: Output>(out: &mut W, going: bool, bytes: &[u8]) -> bool
    ensures { Puts (W.contents out.old) (W.contents out.new) bytes.now going result }
{
    going && out.put(bytes).is_ok()
}

/// Writes a number in decimal, as `put` does a piece.
pub fn put_number<W: Output>(out: &mut W, going: bool, number: u64) -> bool
    ensures { Puts (W.contents out.old) (W.contents out.new) (decimal number) going result }
{
    put(out, going, Buffer::new().format(number).as_bytes())
}

/// Writes a text where it is UTF-8, and else `?`.
fn put_text<W: Output>(out: &mut W, going: bool, text: &[u8]) -> bool
    ensures { Puts (W.contents out.old) (W.contents out.new) (value_text (Text text.now)) going result }
{
    match str::from_utf8(text) {
        Ok(_) => put(out, going, text),
        Err(_) => put(out, going, b"?"),
    }
}

/// Writes a value of a key.
fn put_value<W: Output>(out: &mut W, going: bool, value: ValueRef<'_>) -> bool
    ensures { Puts (W.contents out.old) (W.contents out.new) (value_text (owned value.entry)) going result }
{
    match value {
        ValueRef::Int(number) => put(out, going, Buffer::new().format(number).as_bytes()),
        ValueRef::Text(text) => put_text(out, going, text),
        _ => put(out, going, b"?"),
    }
}

/// Writes the `/` that stands before each column but the first.
fn put_bar<W: Output>(out: &mut W, going: bool, at: usize) -> bool
    ensures { Puts (W.contents out.old) (W.contents out.new) (bar at) going result }
{
    let bar = if at == 0 { "" } else { "/" };
    put(out, going, bar.as_bytes())
}

/// Writes a column of a key, and what stands before it.
fn put_column<W: Output>(out: &mut W, going: bool, row: &Row, at: usize) -> bool
    ensures { Puts (W.contents out.old) (W.contents out.new) (bar at ++ value_text (column row.now at)) going result }
{
    let going = put_bar(out, going, at);
    match row.get_ref(at) {
        Ok(value) => put_value(out, going, value),
        Err(_) => put_value(out, going, ValueRef::Null),
    }
}

/// Writes a key of the first columns of a row.
fn put_columns<W: Output>(out: &mut W, going: bool, row: &Row, keys: usize) -> bool
    ensures { Puts (W.contents out.old) (W.contents out.new) (key_text (take keys row.now)) going result }
{
    let end = keys.min(row.column_count());
    let mut at = 0;
    let mut going = going;
    while at < end {
        going = put_column(out, going, row, at);
        at += 1;
    }
    going
}

/// Writes a key: its columns, parted by `/`. A text is written as it is, with its line feeds, if it has any.
pub(crate) fn put_key<W: Output>(out: &mut W, going: bool, key: &BadKey) -> bool
    ensures { Puts (W.contents out.old) (W.contents out.new) (key_text (key_row key.now)) going result }
{
    match key {
        BadKey::Number(number) => put(out, going, Buffer::new().format(*number).as_bytes()),
        BadKey::Columns(row, keys) => put_columns(out, going, row, *keys),
        BadKey::Named(name) => put_text(out, going, name.as_str().as_bytes()),
        BadKey::Paired(first, second) => {
            let going = put_text(out, going, first.as_str().as_bytes());
            let going = put(out, going, b"/");
            put_text(out, going, second.as_str().as_bytes())
        }
    }
}
