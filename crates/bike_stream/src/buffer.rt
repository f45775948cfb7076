//! Lines out of a reader's bytes.

ghost use Rattle.std.specs.Prelude.{◌≡◌, ℕ, ◌-◌, ◌≤◌, ◌<◌, ◌==◌, List, [], ◌++◌, IfOk, OnOk, OnErr, Ok, Err, true};
ghost use Rattle.std.specs.Prelude.{false, length, take, drop, vec_len};
ghost use Rattle.std.specs.Io.KnownBytes.{Consumes, Keeps, IsAtEnd, prepend_known};
ghost use Rattle.std.specs.Io.BufRead.{drop_through};
ghost use Rattle.bike_stream.specs.Lines.{first_line, has_feed};
ghost use Rattle.bike_stream.specs.Taking.{Takes, Interrupts};
ghost use Rattle.bike_stream.specs.Reads.{most_ahead, ReadsBytes};

use crate::line::Line;
use memchr::memchr;
use std::alloc::{AllocError, Global};
use std::io;
use std::io::Read;
use std::marker::Model;
use thiserror::Error;

/// How many bytes one read asks for.
pub const READ_LENGTH: usize = 65_536;

/// Why no line could be taken.
#[derive(Clone, Copy, Debug, PartialEq, Eq, Error)]
pub enum ReadFault {
    /// A read of the input failed.
    #[error("read failed")]
    Failed,
    /// One more read was needed than were allowed.
    #[error("too many reads")]
    TooMany,
}

/// The bytes that were read and aren't taken yet: seen as a list, what comes before all that is left in the
/// reader.
#[derive(Drop)]
pub struct LineBuffer {
    bytes: Vec<u8>,
    start: usize,
    end: usize,
}

impl Model for LineBuffer {
    ghost use Rattle.std.specs.Prelude.{◌≡◌, ℕ, ◌-◌, ◌≤◌, List, take, drop, vec_len};
    ghost use Rattle.bike_stream.specs.declared.buffer.TheConstants.{READ_LENGTH};

    ghost Value = { List ℕ };

    ghost view = { λ b. take (b.end - b.start) (drop b.start b.bytes.items) };

    ghost invariant = { λ b. (b.start ≤ b.end) × (b.end ≤ vec_len b.bytes) × (vec_len b.bytes ≡ READ_LENGTH) };
}

impl LineBuffer {
    /// Holds nothing yet, and asks for 65,536 bytes at each read.
    pub fn new(alloc: Global) -> Result<LineBuffer, AllocError>
        ensures { IfOk result (λ b. b ≡ []) }
    {
        let bytes = vec![in alloc; 0; READ_LENGTH]?;
        Ok(LineBuffer {
            bytes,
            start: 0,
            end: 0,
        })
    }

    fn is_empty(&self) -> bool
        ensures { result ≡ (length self.now == 0) }
    {
        self.start == self.end
    }

    /// Reads once; false at the end of the input.
    fn fill<R: Read>(&mut self, reader: &mut R) -> io::Result<bool>
        // Nothing is held back.
        requires { self.old ≡ [] }
        // What was read is held, and no more than one read takes.
        ensures bytes { OnOk result (Consumes (R.remaining reader.old) (R.remaining reader.new) self.new) }
        ensures bound { length self.new ≤ READ_LENGTH }
        // True where bytes came, false at the end of the input alone.
        ensures more { IfOk result (λ more. more ≡ true → 0 < length self.new) }
        ensures end { IfOk result (λ more. more ≡ false → (self.new ≡ []) × IsAtEnd (R.remaining reader.new)) }
        // After a failed read nothing is held, and what is known of the input stays.
        ensures err { OnErr result ((self.new ≡ []) × Keeps (R.remaining reader.old) (R.remaining reader.new)) }
    {
        self.start = 0;
        self.end = 0;
        let count = reader.read(self.bytes.as_mut_slice())?;
        self.end = count;
        Ok(count != 0)
    }

    /// Takes the bytes up to the next line feed, which is taken too, or all; true where a line feed came.
    fn take_piece<const KEPT: usize>(&mut self, line: &mut Line<KEPT>) -> bool
        ensures found { result ≡ has_feed self.old }
        ensures rest { self.new ≡ drop_through 10 self.old }
        ensures line { line.new ≡ take KEPT (line.old ++ first_line self.old) }
        ensures drained { result ≡ false → self.new ≡ [] }
    {
        let held = &self.bytes[self.start..self.end];
        match memchr(b'\n', held) {
            Some(at) => {
                line.add(&held[..at]);
                self.start += at + 1;
                true
            }
            None => {
                line.add(held);
                self.start = self.end;
                false
            }
        }
    }

    /// Takes the next line, as far as it is kept, and its line feed; false at the end of the input.
    ///
    /// The last line needs no line feed. Each read takes one off `reads`. `Failed` comes where a read does
    /// that, `TooMany` where one is needed and `reads` is 0; a front of the line is then taken, and nothing is
    /// held back.
    pub fn next_line<R: Read, const KEPT: usize>(
        &mut self,
        reader: &mut R,
        line: &mut Line<KEPT>,
        reads: &mut u32,
    ) -> Result<bool, ReadFault>
        // The next line is taken, of all that is held back or ahead; a fault may come within it.
        ensures taken { IfOk result (λ more. Takes KEPT (prepend_known self.old (R.remaining reader.old))
            (prepend_known self.new (R.remaining reader.new)) more line.new) }
        ensures fault { OnErr result (Interrupts KEPT (prepend_known self.old (R.remaining reader.old))
            (prepend_known self.new (R.remaining reader.new)) line.new) }
        ensures emptied { OnErr result (self.new ≡ []) }

        // Each line takes a byte, and so does each read but one that finds the end or fails.
        ensures fewer { result ≡ Ok true → most_ahead self.new reads.new < most_ahead self.old reads.old }
        ensures read { ReadsBytes (R.remaining reader.old) (R.remaining reader.new)
            self.new reads.old reads.new result }
        ensures tried { result ≡ Err ReadFault.Failed → reads.new < reads.old }
        ensures none_left { result ≡ Err ReadFault.TooMany → reads.new ≡ 0 }
    {
        line.clear();
        let mut started = false;
        loop {
            if self.is_empty() {
                if *reads == 0 {
                    return Err(ReadFault::TooMany);
                }
                *reads -= 1;
                match self.fill(reader) {
                    Ok(true) => {}
                    Ok(false) => return Ok(started),
                    Err(_) => return Err(ReadFault::Failed),
                }
            }
            started = true;
            if self.take_piece(line) {
                return Ok(true);
            }
        }
    }
}
