//! Answers that go out as their clients take them.

ghost use Rattle.std.specs.Prelude.{◌≡◌, ◌≤◌, ◌++◌, [], length, take, map, vec_items, Some, IfOk, OnErr, IsTrue};
ghost use Rattle.bike_http_connection.specs.Answers.{bytes_in, BeginsWith, FreesTaken, Sends};

use crate::connection::Step;
use crate::limits::MOST_CALLS;
use crate::socket::Socket;
use std::alloc::{AllocError, Global};
use std::collections::VecDeque;
use std::io::{ErrorKind, Write};
use std::marker::Model;
use std::{io, mem};

/// How many bytes a block holds.
pub const BLOCK: usize = 65_536;

/// For how many bytes the memory is taken before the answer is made: more than any but a feed has.
const SHORT: usize = 1024;

/// An answer, in blocks that are freed one by one as they are taken; seen as the bytes that aren't sent yet.
#[derive(Drop)]
pub struct ResponseBuffer {
    alloc: Global,
    full: VecDeque<Vec<u8>>,
    last: Vec<u8>,
    /// How many bytes of the first block were taken.
    taken: usize,
    /// How many bytes more there may be.
    room: usize,
}

impl Model for ResponseBuffer {
    ghost use Rattle.std.specs.Prelude.{List, ℕ, ◌≤◌, length, map, vec_items};
    ghost use Rattle.bike_http_connection.specs.Answers.{bytes_in, left_of};

    ghost Value = { List ℕ };

    ghost view = { λ a. left_of a.taken (map vec_items a.full.items) a.last.items };

    ghost invariant = { λ a. a.taken ≤ length (bytes_in (map vec_items a.full.items) a.last.items) };
}

/// The first block.
fn first_block<'a>(full: &'a VecDeque<Vec<u8>>, last: &'a Vec<u8>) -> &'a [u8]
    ensures front { BeginsWith (bytes_in (map vec_items full.now.items) last.now.items) result.now }
    ensures only { full.now.items ≡ [] → result.now ≡ last.now.items }
{
    match full.front() {
        Some(block) => block.as_slice(),
        None => last.as_slice(),
    }
}

/// Frees the first full block where so many bytes are taken that none of it is left; how many bytes are taken of what
/// follows.
fn free_taken(full: &mut VecDeque<Vec<u8>>, taken: usize) -> usize
    ensures { FreesTaken (map vec_items full.old.items) taken (map vec_items full.new.items) result }
{
    let Some(first) = full.front() else {
        return taken;
    };
    let length = first.len();
    if taken < length {
        return taken;
    }
    drop(full.pop_front());
    taken - length
}

impl ResponseBuffer {
    /// No byte yet, and so many at most. It takes the memory for the first 1,024.
    pub fn new(alloc: Global, room: usize) -> Result<ResponseBuffer, AllocError>
        ensures { IfOk result (λ answer. answer ≡ []) }
    {
        let last = Vec::with_capacity(alloc, SHORT)?;
        Ok(ResponseBuffer {
            alloc,
            full: VecDeque::new(alloc),
            last,
            taken: 0,
            room,
        })
    }

    /// How many blocks it holds.
    pub fn blocks(&self) -> usize {
        self.full.len().saturating_add(1)
    }

    /// Adds bytes to the last block, or to a new one where that is full; how many.
    fn add(&mut self, bytes: &[u8]) -> Result<usize, AllocError>
        ensures count { IfOk result (λ count. count ≤ length bytes.now) }
        ensures added { IfOk result (λ count. self.new ≡ self.old ++ take count bytes.now) }
        ensures kept { OnErr result (self.new ≡ self.old) }
    {
        if self.last.len() < BLOCK {
            let count = (BLOCK - self.last.len()).min(bytes.len());
            self.last.extend_from_slice(&bytes[..count])?;
            return Ok(count);
        }
        self.full.reserve(1)?;
        let mut block = Vec::with_capacity(self.alloc, BLOCK)?;
        let count = BLOCK.min(bytes.len());
        block.extend_from_slice(&bytes[..count])?;
        let full = mem::replace(&mut self.last, block);
        self.full.push_back_reserved(full);
        Ok(count)
    }

    /// Frees the first block where it is taken.
    fn free(&mut self)
        ensures { self.new ≡ self.old }
    {
        self.taken = free_taken(&mut self.full, self.taken);
    }

    /// Whether all of it is sent.
    pub(crate) fn is_sent(&self) -> bool
        ensures { IsTrue result → self.now ≡ [] }
    {
        self.full.is_empty() && self.taken >= self.last.len()
    }

    /// Sends some bytes, by one write; none where there may be more to do.
    fn send_some<S: Socket>(&mut self, writer: &mut S) -> Option<Step>
        ensures sends { Sends (S.contents writer.old) (S.contents writer.new) self.old self.new }
        ensures all { result ≡ Some Step.Sent → self.new ≡ [] }
        ensures own { S.input writer.new ≡ S.input writer.old }
    {
        self.free();
        let block = first_block(&self.full, &self.last);
        let start = self.taken.min(block.len());
        if start == block.len() {
            return if self.full.is_empty() {
                Some(Step::Sent)
            } else {
                None
            };
        }
        match writer.write(&block[start..]) {
            Ok(0) => Some(Step::Over),
            Ok(count) => {
                self.taken = start + count;
                None
            }
            Err(error) if error.kind() == ErrorKind::WouldBlock => Some(Step::Waits),
            Err(_) => Some(Step::Over),
        }
    }

    /// Sends as much as the client takes now, in at most 16 writes: what is sent and what is left is what there was.
    /// `Sent` says that nothing is left.
    pub fn send<S: Socket>(&mut self, writer: &mut S) -> Step
        ensures sends { Sends (S.contents writer.old) (S.contents writer.new) self.old self.new }
        ensures all { result ≡ Step.Sent → self.new ≡ [] }
        ensures own { S.input writer.new ≡ S.input writer.old }
    {
        for _turn in 0..MOST_CALLS {
            if let Some(step) = self.send_some(writer) {
                return step;
            }
        }
        Step::GoesOn
    }
}

impl Write for ResponseBuffer {
    ghost use Rattle.std.specs.Prelude.{Some};

    ghost contents = { λ answer. Some answer };

    fn write(&mut self, buf: &[u8]) -> io::Result<usize> {
        let some = buf.len().min(self.room);
        match self.add(&buf[..some]) {
            Ok(count) => {
                self.room = self.room.saturating_sub(count);
                Ok(count)
            }
            Err(AllocError) => Err(ErrorKind::OutOfMemory.into()),
        }
    }

    fn flush(&mut self) -> io::Result<()> {
        Ok(())
    }
}
