//! The head of an answer.

ghost use Rattle.std.specs.Prelude.{◌≡◌, ◌≤◌, ◌+◌, ◌++◌, length, decimal};
ghost use Rattle.arrayvec.specs.ArrayString.{array_string_len};
ghost use Rattle.bike_http_response.specs.Head.{allow_line, head_text};

use crate::status::Status;
use arrayvec::ArrayString;
use bike_http_head::Allow;
use itoa::Buffer;

/// Room in bytes for every head.
pub const HEAD_ROOM: usize = 192;

/// The line that names the allowed method.
fn allow_line(allow: Option<Allow>) -> &'static str
    ensures value { result.now ≡ allow_line allow }
    ensures short { length result.now ≤ 13 }
{
    match allow {
        None => "",
        Some(Allow::Get) => "Allow: GET\r\n",
        Some(Allow::Post) => "Allow: POST\r\n",
    }
}

/// Appends a number; one of 64 bits has at most 20 digits.
fn push_number(out: &mut ArrayString<HEAD_ROOM>, number: u64)
    requires { array_string_len out.old ≤ 160 }
    ensures bytes { out.new.bytes ≡ out.old.bytes ++ decimal number }
    ensures length { array_string_len out.new ≤ array_string_len out.old + 20 }
{
    let mut buffer = Buffer::new();
    out.push_str(buffer.format(number));
}

/// The head of an answer with that status, whose body is JSON of so many bytes (RFC 9112, section 4): the status line,
/// the fields, of which `Allow` comes last, and the empty line.
#[tactic(auto, unfolding(crate::specs::Head::head_text))]
pub fn head_text(status: Status, allow: Option<Allow>, length: u64) -> ArrayString<HEAD_ROOM>
    ensures { result.bytes ≡ head_text status allow length }
{
    let mut out = ArrayString::new();
    out.push_str("HTTP/1.1 ");
    push_number(&mut out, u64::from(status.code()));
    out.push_str(" ");
    out.push_str(status.reason());
    out.push_str("\r\nContent-Type: application/json\r\nContent-Length: ");
    push_number(&mut out, length);
    out.push_str("\r\nConnection: close\r\n");
    out.push_str(allow_line(allow));
    out.push_str("\r\n");
    out
}
