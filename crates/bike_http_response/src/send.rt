//! Writing an answer.

ghost use Rattle.std.specs.Prelude.{◌≡◌, ◌<◌, length, None, IfSome};
ghost use Rattle.bike_json.specs.State.{greatest_count};
ghost use Rattle.bike_json.specs.Tree.{text_of};
ghost use Rattle.bike_http_response.specs.Bodies.{body_of};
ghost use Rattle.bike_http_response.specs.Sent.{Sends};

use crate::answer::Answer;
use crate::body::write_body;
use crate::head::head_text;
use crate::status::Status;
use bike_json::{Discard, JsonState};
use bike_stream::{WriteFault, write_whole};
use std::io::Write;

/// The length of an answer's body in bytes; none only where it is beyond every count.
pub fn body_length(answer: &Answer) -> Option<u64>
    ensures some { IfSome result (λ n. n ≡ length (text_of (body_of answer.now))) }
    ensures none { result ≡ None → greatest_count < length (text_of (body_of answer.now)) }
{
    let mut json = JsonState::new();
    write_body(&mut json, &mut Discard, answer);
    match json.outcome() {
        Ok(()) => Some(json.count()),
        Err(_) => None,
    }
}

/// Writes an answer, the length of whose body is known.
fn send<W: Write>(out: &mut W, answer: &Answer, size: u64) -> Result<Status, WriteFault>
    requires { size ≡ length (text_of (body_of answer.now)) }
    ensures { Sends (W.contents out.old) (W.contents out.new) answer.now result }
{
    let status = answer.status();
    let head = head_text(status, answer.allow(), size);
    write_whole(out, head.as_str().as_bytes())?;
    let mut json = JsonState::new();
    write_body(&mut json, out, answer);
    match json.outcome() {
        Ok(()) => Ok(status),
        Err(fault) => Err(fault),
    }
}

/// Writes an answer, and gives its status. Fails where a write fails, and then a front of the answer is written; so too
/// where the length of its body can't be counted, which is told as a failed write: another answer is never sent in its
/// place.
pub fn write_answer<W: Write>(out: &mut W, answer: &Answer) -> Result<Status, WriteFault>
    ensures { Sends (W.contents out.old) (W.contents out.new) answer.now result }
{
    match body_length(answer) {
        Some(length) => send(out, answer, length),
        None => Err(WriteFault),
    }
}
