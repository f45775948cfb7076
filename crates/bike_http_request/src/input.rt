//! The bytes of an input that are read.

ghost use Rattle.std.specs.Prelude.{◌≡◌, ◌+◌, ◌<◌, ◌≤◌, [], length, IfOk, OnOk, OnErr};
ghost use Rattle.std.specs.Io.KnownBytes.{Keeps};
ghost use Rattle.bike_http_request.specs.Received.{ReadsMore};

use bike_http_head::{BODY_LENGTH, HEAD_LENGTH};
use std::io::Read;
use std::marker::Model;

/// Room for a head and a body.
const INPUT_ROOM: usize = HEAD_LENGTH + BODY_LENGTH;

/// How many reads one input may take.
pub const MOST_READS: u32 = 20_000;

/// A read failed, or too many were wanted.
#[derive(Clone, Copy)]
pub(crate) struct ReadFailed;

/// How many reads of an input may still be made.
#[derive(Drop)]
pub(crate) struct ReadsLeft {
    count: u32,
}

impl ReadsLeft {
    /// Those of one input.
    pub(crate) fn new() -> ReadsLeft
        ensures { result.count ≡ 20000 }
    {
        ReadsLeft { count: MOST_READS }
    }

    /// Takes one off; a fault where none is left.
    fn spend(&mut self) -> Result<(), ReadFailed>
        ensures counted { OnOk result (self.new.count + 1 ≡ self.old.count) }
        ensures kept { OnErr result (self.new ≡ self.old) }
    {
        if self.count == 0 {
            return Err(ReadFailed);
        }
        self.count -= 1;
        Ok(())
    }
}

/// What was read of an input, in a fixed array and so without memory; seen as the list of its bytes.
#[derive(Drop)]
pub(crate) struct Input {
    bytes: [u8; INPUT_ROOM],
    length: usize,
}

impl Model for Input {
    ghost use Rattle.std.specs.Prelude.{List, ℕ, ◌≤◌, take};

    ghost Value = { List ℕ };

    ghost view = { λ a. take a.length a.bytes };

    ghost invariant = { λ a. a.length ≤ 24576 };
}

impl Input {
    /// Nothing is read yet.
    pub(crate) fn new() -> Input
        ensures { result ≡ [] }
    {
        Input {
            bytes: [0; INPUT_ROOM],
            length: 0,
        }
    }

    /// The bytes that were read.
    pub(crate) fn as_slice(&self) -> &[u8]
        ensures value { result.now ≡ self.now }
        ensures short { length result.now ≤ 24576 }
    {
        &self.bytes[..self.length]
    }

    /// Reads once, up to `end` bytes in all; false at the end of the input. It is one of the reads that are left.
    pub(crate) fn read_more<R: Read>(
        &mut self,
        reader: &mut R,
        reads: &mut ReadsLeft,
        end: usize,
    ) -> Result<bool, ReadFailed>
        requires room { length self.old < end }
        requires end { end ≤ 24576 }
        // What was read stands behind what came before, and no more than fits.
        ensures more { IfOk result (ReadsMore (R.remaining reader.old) (R.remaining reader.new) self.old self.new) }
        ensures within { length self.new ≤ end }
        // A failed read takes nothing.
        ensures fault { OnErr result (Keeps (R.remaining reader.old) (R.remaining reader.new)) }
        // Each read that gives bytes is counted.
        ensures counted { OnOk result (reads.new.count + 1 ≡ reads.old.count) }
        ensures fewer { reads.new.count ≤ reads.old.count }
    {
        reads.spend()?;
        match reader.read(&mut self.bytes[self.length..end]) {
            Ok(count) => {
                self.length += count;
                Ok(count > 0)
            }
            Err(_) => Err(ReadFailed),
        }
    }
}
