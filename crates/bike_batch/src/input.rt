//! An input that is read a bounded number of times, and gives each record a bounded number of bytes.

ghost use Rattle.std.specs.Prelude.{◌≡◌, ◌+◌, OnOk};
ghost use Rattle.std.specs.Io.{ReadsAtMost};
ghost use Rattle.std.specs.Io.KnownBytes.{ReadConsumes};

use std::cell::Cell;
use std::io;
use std::io::Read;

/// How many reads of its input an import makes at most.
pub const MOST_TABLE_READS: u32 = 1_000_000;

/// How many bytes are read for one record at most, in whole reads; the five fields of a row take less than a hundredth
/// of that. So a record that doesn't end takes no more memory.
pub const MOST_RECORD: usize = 65_536;

/// A reader that fails once so many reads were made, or so many bytes were read for one record.
#[derive(Drop)]
pub struct Input<R> {
    reader: R,
    reads: u32,
    // The CSV reader lends its source, and only to be looked at.
    room: Cell<usize>,
}

impl<R> Input<R> {
    /// The reader, of which nothing was read yet.
    pub fn new(reader: R) -> Input<R>
        ensures reader { result.reader ≡ reader }
        ensures reads { result.reads ≡ 1000000 }
    {
        Input {
            reader,
            reads: MOST_TABLE_READS,
            room: Cell::new(MOST_RECORD),
        }
    }

    /// Gives the next record its bytes.
    pub fn begin_record(&self) {
        self.room.set(MOST_RECORD);
    }
}

impl<R: Read> Read for Input<R> {
    ghost remaining = { λ input. R.remaining input.reader };

    fn read(&mut self, buf: &mut [u8]) -> io::Result<usize>
        ensures bound { ReadsAtMost result buf.new }
        ensures bytes { ReadConsumes (R.remaining self.old.reader) (R.remaining self.new.reader) result buf.new }
        ensures counted { OnOk result (self.new.reads + 1 ≡ self.old.reads) }
    {
        let room = self.room.get();
        if self.reads == 0 || room == 0 {
            return Err(io::Error::from(io::ErrorKind::TimedOut));
        }
        self.reads -= 1;
        let count = self.reader.read(buf)?;
        self.room.set(room.saturating_sub(count));
        Ok(count)
    }
}
