//! A text of every kind of call, as RFC 8259 has it, and the values that another reader of JSON finds in it.

use bike_fixed::{Cents, Micro};
use bike_json::JsonWriter;
use serde_json::Value;
use std::alloc::Global;
use std::test::Fail;

/// A name with every kind of escape, and with characters of one to four bytes.
const NAME: &str = "a\"\\\u{8}\t\n\u{c}\r\u{1f}\0/\u{7f}\u{e9}\u{20ac}\u{1f6b2}";

/// What RFC 8259 makes of the calls of `write_text`.
const TEXT: &str = "{\"a\\\"\\\\\\b\\t\\n\\f\\r\\u001f\\u0000/\u{7f}\u{e9}\u{20ac}\u{1f6b2}\":\"\",\
     \"n\":[-9223372036854775808,-0.25,-92233720368547758.08,-0.000001,180.000000,true,{},[[]]]}";

/// Makes every kind of call; gives the outcome of the last, the count and what was written.
fn write_text(out: Vec<u8>) -> (bool, u64, Vec<u8>) {
    let mut json = JsonWriter::new(out);
    let _ = json.begin_object();
    let _ = json.name(NAME);
    let _ = json.text("");
    let _ = json.name("n");
    let _ = json.begin_array();
    let _ = json.whole(i64::MIN);
    let _ = json.cents(Cents::new(-25));
    let _ = json.cents(Cents::new(i64::MIN));
    if let (Some(west), Some(east)) = (Micro::new(-1), Micro::new(180_000_000)) {
        let _ = json.micro(west);
        let _ = json.micro(east);
    }
    let _ = json.flag(true);
    let _ = json.begin_object();
    let _ = json.end_object();
    let _ = json.begin_array();
    let _ = json.begin_array();
    let _ = json.end_array();
    let _ = json.end_array();
    let _ = json.end_array();
    let last = json.end_object();
    let count = json.count();
    (last.is_ok(), count, json.into_inner())
}

/// Whether every call goes well, and the text stands in the vector.
fn is_written(alloc: Global) -> bool {
    let (is_well, count, out) = write_text(Vec::new(alloc));
    is_well && count == TEXT.len() as u64 && out.as_slice() == TEXT.as_bytes()
}

/// Whether the value is what was written, as far as another reader of JSON tells.
fn is_the_text(value: &Value) -> bool {
    let Some(numbers) = value.get("n").and_then(Value::as_array) else {
        return false;
    };
    numbers.len() == 8
        && numbers.first().and_then(Value::as_i64) == Some(i64::MIN)
        && value.get(NAME).and_then(Value::as_str) == Some("")
}

#[test]
fn is_read_back(rt: HostRuntime) -> Result<(), Fail> {
    assert!(rt; is_written(rt.alloc()));
    let value = Value::from_str(rt.alloc(), TEXT)?;
    assert!(rt; is_the_text(&value));
    Ok(())
}
