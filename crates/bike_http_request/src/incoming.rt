//! Reading what an input asks for.

ghost use Rattle.std.specs.Prelude.{◌≡◌, ◌≤◌, ◌++◌, [], length, Err, IfOk, IfSome, OnOk};
ghost use Rattle.bike_http_request.specs.Asked.{Asks};
ghost use Rattle.bike_http_request.specs.Received.{Grew, IsOpened, Opens, Fills, Received, WantsMemory};

use crate::action::{Action, ask};
use crate::input::{Input, ReadFailed, ReadsLeft};
use bike_http_head::{BodyLength, HEAD_LENGTH, Head, HeadReading, Rejection, Routes, read_head};
use std::alloc::{AllocError, Global};
use std::io::Read;
use std::str;
use thiserror::Error;

/// Why nothing is known of what an input asks for.
#[derive(Clone, Copy, Debug, PartialEq, Eq, Error)]
pub enum ReceiveFault {
    /// A read failed, or one more was needed than 20,000.
    #[error("read failed")]
    Read,
    /// Memory was refused.
    #[error("out of memory")]
    NoMemory,
}

impl From<AllocError> for ReceiveFault {
    ghost use Rattle.std.specs.Prelude.{◌≡◌};
    ghost use Rattle.bike_http_request.specs.declared.incoming.ReceiveFault.TheVariants.{NoMemory};

    ghost from_gives = { λ _ fault. fault ≡ NoMemory };

    fn from(_: AllocError) -> ReceiveFault {
        ReceiveFault::NoMemory
    }
}

impl From<ReadFailed> for ReceiveFault {
    ghost use Rattle.std.specs.Prelude.{◌≡◌};
    ghost use Rattle.bike_http_request.specs.declared.incoming.ReceiveFault.TheVariants.{Read};

    ghost from_gives = { λ _ fault. fault ≡ Read };

    fn from(_: ReadFailed) -> ReceiveFault {
        ReceiveFault::Read
    }
}

/// What an input begins with.
#[derive(Clone, Copy)]
enum Opening {
    /// It has no byte.
    Empty,
    /// It has no head.
    Unreadable,
    /// It has a head.
    Whole(Head),
}

/// Reads until the input's head is whole, or no head can come.
#[tactic(auto, using(crate::proofs::Receiving::grew_then, crate::proofs::Receiving::told_opened, crate::proofs::Receiving::ended_opens))]
fn receive_head<R: Read>(
    reader: &mut R,
    reads: &mut ReadsLeft,
    input: &mut Input,
) -> Result<Opening, ReadFailed>
    requires { input.old ≡ [] }
    ensures grew { OnOk result (Grew (R.remaining reader.old) (R.remaining reader.new) input.old input.new) }
    ensures opens { IfOk result (Opens input.new (R.remaining reader.new)) }
    ensures short { length input.new ≤ 8192 }
    ensures fewer { reads.new.count ≤ reads.old.count }
{
    loop {
        if !input.read_more(reader, reads, HEAD_LENGTH)? {
            if input.as_slice().is_empty() {
                return Ok(Opening::Empty);
            }
            return Ok(Opening::Unreadable);
        }
        match read_head(input.as_slice()) {
            HeadReading::Incomplete => {}
            HeadReading::Unreadable => return Ok(Opening::Unreadable),
            HeadReading::Whole(head) => return Ok(Opening::Whole(head)),
        }
    }
}

/// Reads until so many bytes are there; false where the input ends before.
#[tactic(auto, using(crate::proofs::Receiving::grew_then))]
fn receive_until<R: Read>(
    reader: &mut R,
    reads: &mut ReadsLeft,
    input: &mut Input,
    end: usize,
) -> Result<bool, ReadFailed>
    requires { end ≤ 24576 }
    ensures fewer { reads.new.count ≤ reads.old.count }
    ensures fills { IfOk result (Fills (R.remaining reader.old) (R.remaining reader.new) input.old input.new end) }
{
    while input.as_slice().len() < end {
        if !input.read_more(reader, reads, end)? {
            return Ok(false);
        }
    }
    Ok(true)
}

/// What the head asks for, with the body behind it.
fn receive_body<R: Read>(
    alloc: Global,
    routes: &Routes,
    reader: &mut R,
    reads: &mut ReadsLeft,
    input: &mut Input,
    head: Head,
) -> Result<Action, ReceiveFault>
    requires { IsOpened input.old head }
    ensures fewer { reads.new.count ≤ reads.old.count }
    ensures asks { IfOk result (λ asked. IfSome (R.remaining reader.old) (λ left. Asks (input.old ++ left) asked)) }
    ensures memory { result ≡ Err ReceiveFault.NoMemory
        → IfSome (R.remaining reader.old) (λ left. WantsMemory (input.old ++ left)) }
{
    let size = match head.body {
        BodyLength::Malformed => return Ok(Action::Reject(Rejection::BadRequest)),
        BodyLength::TooLong => return Ok(Action::Reject(Rejection::TooLarge)),
        BodyLength::Of(size) => size,
    };
    let end = head.length + size;
    if !receive_until(reader, reads, input, end)? {
        return Ok(Action::Reject(Rejection::BadRequest));
    }
    let bytes = input.as_slice();
    let Ok(target) = str::from_utf8(head.target.of(bytes)) else {
        return Ok(Action::Reject(Rejection::BadRequest));
    };
    let method = head.method.of(bytes);
    Ok(ask(alloc, routes, method, target, &bytes[head.length..end])?)
}

/// Reads one input, until what it asks for is known: none where it ends before its first byte. No byte behind the body
/// is waited for.
pub fn receive<R: Read>(
    alloc: Global,
    routes: &Routes,
    reader: &mut R,
) -> Result<Option<Action>, ReceiveFault>
    ensures received { IfOk result (λ asked. IfSome (R.remaining reader.old) (λ input. Received input asked)) }
    ensures memory { result ≡ Err ReceiveFault.NoMemory → IfSome (R.remaining reader.old) WantsMemory }
{
    let mut input = Input::new();
    let mut reads = ReadsLeft::new();
    match receive_head(reader, &mut reads, &mut input)? {
        Opening::Empty => Ok(None),
        Opening::Unreadable => Ok(Some(Action::Reject(Rejection::BadRequest))),
        Opening::Whole(head) => Ok(Some(receive_body(
            alloc, routes, reader, &mut reads, &mut input, head,
        )?)),
    }
}
