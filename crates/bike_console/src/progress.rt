//! How far long work is, told to a person who looks.

use crate::pieces::{put, put_number};
use bike_audit::Watch;
use bike_recognition::{EVERY_TABLE, TableName};
use std::io;
use std::io::{Read, Write};

/// What begins the line below a terminal's own anew: its begin, and the erasure of its rest (ECMA-48, EL).
const ANEW: &[u8] = b"\r\n\x1b[K";

/// What goes back to the begin of the line above (ECMA-48, CUU), where an answer is written as if nobody had been told
/// anything.
const BACK: &[u8] = b"\x1b[A\r";

/// What erases this line and all below it (ECMA-48, ED).
const ERASED: &[u8] = b"\r\x1b[J";

/// One line on an output, below the one that answers are written to, written anew at each step of long work and taken
/// away at the end. Where nobody looks nothing is written, and a step that can't be written changes nothing.
#[derive(Drop)]
pub struct Progress<W> {
    out: W,
    is_shown: bool,
    steps: u64,
}

impl<W: Write> Progress<W> {
    /// The line on this output. `is_shown` says whether a person looks.
    pub fn new(out: W, is_shown: bool) -> Progress<W> {
        Progress {
            out,
            is_shown,
            steps: 0,
        }
    }

    /// Tells that the file is being opened: the engine reads and checks all of it.
    pub fn opening(&mut self) {
        if self.is_shown {
            let going = put(&mut self.out, true, ANEW);
            let going = put(&mut self.out, going, b"opening the file");
            put(&mut self.out, going, BACK);
        }
    }

    /// Tells how many lines of the input were read.
    fn read_lines(&mut self, lines: u64) {
        self.steps = self.steps.saturating_add(lines);
        let going = put(&mut self.out, true, ANEW);
        let going = put(&mut self.out, going, b"lines read: ");
        let going = put_number(&mut self.out, going, self.steps);
        put(&mut self.out, going, BACK);
    }

    /// Takes the line away.
    pub fn end(&mut self) {
        if self.is_shown {
            put(&mut self.out, true, ERASED);
        }
    }
}

/// An audit is told by its table, and that table's place among all.
impl<W: Write> Watch for Progress<W> {
    ghost use Rattle.std.specs.Prelude.{None};

    ghost told = { λ _. None };

    fn reached(&mut self, table: TableName) {
        if !self.is_shown {
            return;
        }
        self.steps = self.steps.saturating_add(1);
        let going = put(&mut self.out, true, ANEW);
        let going = put(&mut self.out, going, b"checking ");
        let going = put(&mut self.out, going, table.name().as_bytes());
        let going = put(&mut self.out, going, b", table ");
        let going = put_number(&mut self.out, going, self.steps);
        let going = put(&mut self.out, going, b" of ");
        let going = put_number(&mut self.out, going, EVERY_TABLE.len() as u64);
        put(&mut self.out, going, BACK);
    }
}

/// A reader whose lines are counted as they are read, where a person looks.
#[derive(Drop)]
pub struct CountingReader<R, W> {
    reader: R,
    progress: Progress<W>,
}

impl<R: Read, W: Write> CountingReader<R, W> {
    /// The reader, of which nothing was read yet, and where it is told.
    pub fn new(reader: R, progress: Progress<W>) -> CountingReader<R, W> {
        CountingReader { reader, progress }
    }
}

/// How many line feeds there are.
fn count_lines(bytes: &[u8]) -> u64 {
    let mut lines: u64 = 0;
    for byte in bytes {
        if *byte == b'\n' {
            lines = lines.saturating_add(1);
        }
    }
    lines
}

/// What is read is what the reader gives.
impl<R: Read, W: Write> Read for CountingReader<R, W> {
    ghost remaining = { λ counted. R.remaining counted.reader };

    fn read(&mut self, buf: &mut [u8]) -> io::Result<usize> {
        let count = self.reader.read(buf)?;
        if self.progress.is_shown {
            if let Some(bytes) = buf.get(..count) {
                let lines = count_lines(bytes);
                self.progress.read_lines(lines);
            }
        }
        Ok(count)
    }
}
