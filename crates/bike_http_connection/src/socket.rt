//! Sockets that are read and written as far as they are ready.

ghost use Rattle.std.specs.Prelude.{◌≡◌, IsTrue};
ghost use Rattle.std.specs.Io.{ReadsAtMost, WritesAtMost};
ghost use Rattle.std.specs.Io.KnownBytes.{ReadConsumes, WriteAppends};

use std::io;

/// What a socket is wanted to be ready for.
#[derive(Clone, Copy, PartialEq, Eq)]
pub enum Wants {
    Reads,
    Writes,
}

/// The socket of a client. A read or a write of it never waits: it fails with `WouldBlock`. No call makes it another
/// client's.
pub trait Socket: Drop {
    ghost use Rattle.std.specs.Prelude.{◌≡◌, ℕ, List, Bool, Option, Some, IsTrue};

    /// What tells which sockets are ready.
    type Registry;

    // Whether it is known what clients send and take.
    ghost is_known: { Bool };

    // What reads give from here on, and what writes gave so far.
    ghost remaining: { Self → Option (List ℕ) };

    ghost contents: { Self → Option (List ℕ) };

    // All that the client sends, from the first byte on, what of it comes still, and what the client took.
    ghost input: { Self → List ℕ };

    ghost coming: { Self → List ℕ };

    ghost taken: { Self → List ℕ };

    /// Reads what came; how many bytes. None where nothing comes any more, or where there is no room for any.
    fn read(&mut self, buf: &mut [u8]) -> io::Result<usize>
        ensures bound { ReadsAtMost result buf.new }
        ensures bytes { ReadConsumes (remaining self.old) (remaining self.new) result buf.new }
        ensures own { input self.new ≡ input self.old }
        ensures kept { taken self.new ≡ taken self.old };

    /// Sends some bytes; how many the client took.
    fn write(&mut self, buf: &[u8]) -> io::Result<usize>
        ensures bound { WritesAtMost result buf.now }
        ensures bytes { WriteAppends (contents self.old) (contents self.new) result buf.now }
        ensures own { input self.new ≡ input self.old };

    /// Has the registry tell by this key when the socket is ready, from now on or for something else than before.
    fn watch(
        &mut self,
        registry: &Self::Registry,
        key: usize,
        wants: Wants,
        is_first: bool,
    ) -> io::Result<()>
        ensures coming { coming self.new ≡ coming self.old }
        ensures own { input self.new ≡ input self.old }
        ensures kept { taken self.new ≡ taken self.old };

    /// Tells the client that nothing more is sent.
    fn shut_writes(&mut self)
        ensures own { input self.new ≡ input self.old }
        ensures kept { taken self.new ≡ taken self.old };

    ghost told: { (socket : Self) → IsTrue is_known → remaining socket ≡ Some (coming socket) };

    ghost told_taken: { (socket : Self) → IsTrue is_known → contents socket ≡ Some (taken socket) };
}
