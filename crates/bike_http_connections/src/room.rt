//! Room for the answers under way.

ghost use Rattle.std.specs.Prelude.{◌≡◌, ◌≤◌, ◌+◌, ◌-◌, ◌^◌, ◌↔◌, min, IsTrue, if◌then◌else◌};

/// How many blocks the answers under way have together at most: 32 MB.
const MOST_BLOCKS: usize = 512;

/// For how many blocks there is room when a feed is begun: more than the longest has.
const FEED_BLOCKS: usize = 256;

/// How many blocks the answers under way hold.
#[derive(Clone, Copy)]
pub(crate) struct Room {
    held: usize,
}

impl Room {
    /// They hold none.
    pub(crate) fn new() -> Room
        ensures { result ≡ record { held = 0 } }
    {
        Room { held: 0 }
    }

    /// One is there that holds so many; how many of them are counted: all, unless that is more than can be counted.
    pub(crate) fn take(&mut self, blocks: usize) -> usize
        ensures held { self.new.held ≡ min (self.old.held + blocks) (2 ^ 64 - 1) }
        ensures counted { self.new.held ≡ self.old.held + result }
    {
        let before = self.held;
        self.held = self.held.saturating_add(blocks);
        self.held - before
    }

    /// One is gone that held so many.
    pub(crate) fn give_back(&mut self, blocks: usize)
        ensures { self.new.held ≡ self.old.held - blocks }
    {
        self.held = self.held.saturating_sub(blocks);
    }

    /// Whether a feed may be begun.
    pub(crate) fn fits_feed(&self) -> bool
        ensures { IsTrue result ↔ self.now.held + FEED_BLOCKS ≤ MOST_BLOCKS }
    {
        self.held <= MOST_BLOCKS - FEED_BLOCKS
    }

    /// How many blocks an answer may have that is begun: a feed all that are left.
    pub(crate) fn blocks_for(&self, is_feed: bool) -> usize
        ensures { result ≡ (if is_feed then MOST_BLOCKS - self.now.held else 1) }
    {
        if is_feed {
            MOST_BLOCKS.saturating_sub(self.held)
        } else {
            1
        }
    }
}
