//! Request lines.

ghost use Rattle.std.specs.Prelude.{◌≡◌, ◌≤◌, ℕ, IfOk, IfErr, IfSome, Some, Ok, true};
ghost use Rattle.bike_fixed.specs.Whole.{last_moment};
ghost use Rattle.bike_commands.specs.declared.request.Request.{Request};
ghost use Rattle.bike_commands.specs.Commands.{IsCommand};
ghost use Rattle.bike_commands.specs.Requests.{IsRequest, IsLine};
ghost use Rattle.bike_requests.specs.Unread.{IsReading};
ghost use Rattle.bike_requests.specs.RequestReaders.{request_at};
ghost use Rattle.bike_requests.specs.Spelling.{SpellsRequest};
ghost use Rattle.bike_fields.specs.Bytes.{is_key};
ghost use Rattle.bike_fields.specs.Caller.{IsCaller};

use crate::reading::read_rest;
use crate::unread::{Unread, none_if_bad};
use bike_commands::{Command, LINE_LENGTH, Request};
use bike_fields::{Caller, RequestKey};
use bike_fixed::Moment;
use bike_texts::Fields;
use std::alloc::{AllocError, Global};

/// The caller, and the key with memory of its own.
fn keep_names(
    alloc: Global,
    caller: Result<Caller, AllocError>,
    key: &str,
) -> Result<(Caller, RequestKey), AllocError>
    requires { is_key key.now ≡ true }
    ensures { IfOk result (λ names. (caller ≡ Ok names.0) × (names.1 ≡ key.now)) }
{
    let caller = caller?;
    let key = RequestKey::of(alloc, key)?;
    Ok((caller, key))
}

/// The command as a request of this caller under this key.
fn keep_request(
    alloc: Global,
    caller: Result<Caller, AllocError>,
    key: &str,
    command: Command,
) -> Result<Request, AllocError>
    requires caller { IfOk caller IsCaller }
    requires key { is_key key.now ≡ true }
    requires command { IsCommand command }
    ensures { IfOk result (λ q. (caller ≡ Ok q.caller) × (q.key ≡ key.now) × (q.command ≡ command)) }
{
    keep_names(alloc, caller, key).map(
        move |(caller, key)|
            requires { IsRequest (record { caller = caller; key = key; command = command }) }
        {
            Request {
                caller,
                key,
                command,
            }
        },
    )
}

#[tactic(auto, unfolding(crate::specs::RequestReaders::request_at))]
fn read_request(alloc: Global, mut fields: Fields) -> Result<(Moment, Request), Unread>
    ensures { IsReading (request_at fields.entry) result }
{
    let moment = fields.moment().ok_or(Unread::BadField)?;
    let Some(caller) = fields.caller() else {
        return Err(Unread::BadField);
    };
    let key = fields.key().ok_or(Unread::BadField)?;
    let command = read_rest(alloc, fields)?;
    let request = keep_request(alloc, caller.keep(alloc), key, command)?;
    Ok((moment, request))
}

/// The request that the line spells, and the moment at which it comes: `MOMENT⇥CALLER⇥KEY⇥COMMAND`,
/// where `⇥` is a TAB and the moment is in seconds. None where the line is longer than `LINE_LENGTH`, isn't
/// UTF-8 or spells no request; an error where memory was refused, which only a line that spells a request asks for. The
/// line stands without its LF.
pub fn read_line(alloc: Global, line: &[u8]) -> Result<Option<(Moment, Request)>, AllocError>
    ensures found { IfOk result (λ o. IfSome o (λ r. IsLine line.now r.0 r.1 × IsRequest r.1 × (r.0 ≤ last_moment))) }
    ensures only { IfOk result (λ o. (t : ℕ) (q : Request) → t ≤ last_moment → IsRequest q → IsLine line.now t q
        → o ≡ Some (t, q)) }
    ensures spared { IfErr result (λ _. SpellsRequest line.now) }
{
    if line.len() > LINE_LENGTH {
        return Ok(None);
    }
    let Ok(text) = str::from_utf8(line) else {
        return Ok(None);
    };
    none_if_bad(read_request(alloc, Fields::of(text)))
}
