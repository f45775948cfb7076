//! One line, kept as far as its reader needs it.

ghost use Rattle.std.specs.Prelude.{◌≡◌, ℕ, ◌≤◌, List, [], ◌++◌, IfOk, take, vec_len, vec_capacity};

use std::alloc::{AllocError, Global};
use std::marker::Model;

/// The first `KEPT` bytes of a line, without its line feed.
///
/// With room for one byte more than the longest line that is legal, a line that is too long is seen to be
/// so, and an endless one costs no memory.
#[derive(Drop)]
pub struct Line<const KEPT: usize> {
    bytes: Vec<u8>,
}

impl<const KEPT: usize> Model for Line<KEPT> {
    ghost Value = { List ℕ };

    ghost view = { λ l. l.bytes.items };

    ghost invariant = { λ l. (KEPT ≤ vec_capacity l.bytes) × (vec_len l.bytes ≤ KEPT) };
}

impl<const KEPT: usize> Line<KEPT> {
    /// An empty line with room for `KEPT` bytes.
    pub fn new(alloc: Global) -> Result<Line<KEPT>, AllocError>
        ensures { IfOk result (λ line. line ≡ []) }
    {
        let bytes = Vec::with_capacity(alloc, KEPT)?;
        Ok(Line { bytes })
    }

    /// The bytes that are kept.
    pub fn as_slice(&self) -> &[u8]
        ensures { result.now ≡ self.now }
    {
        self.bytes.as_slice()
    }

    /// Forgets the line.
    pub fn clear(&mut self)
        ensures { self.new ≡ [] }
    {
        self.bytes.clear();
    }

    /// Adds bytes, as many as are still kept.
    pub fn add(&mut self, piece: &[u8])
        ensures { self.new ≡ take KEPT (self.old ++ piece.now) }
    {
        let room = KEPT - self.bytes.len();
        let count = room.min(piece.len());
        let _ = self.bytes.extend_from_slice(&piece[..count]);
    }
}
