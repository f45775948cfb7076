//! Where connections come from.

ghost use Rattle.std.specs.Prelude.{◌≡◌, [], length, IsTrue};
ghost use Rattle.bike_http_connections.specs.Ahead.{Loses};
ghost use Rattle.bike_http_connections.specs.Accepting.{Accepts, AcceptsAlone, IsWithin, AreFresh, AreFreshAlone};

use bike_fixed::Moment;
use bike_http_connection::Socket;
use std::io;
use std::time::Duration;

/// What accepting gave.
#[derive(Drop)]
pub enum AcceptOutcome<S> {
    /// A connection, and the moment at which it was accepted.
    One(S, Moment),
    /// None that stayed, and there may be more.
    Lost,
    /// None is there.
    Nobody,
    /// None, since accepting failed; it may go well a moment later.
    Failed,
}

/// Where connections come from, what tells which of them are ready, and the time.
pub trait Network: Drop {
    ghost use Rattle.std.specs.Prelude.{List};
    ghost use Rattle.bike_http_connection.specs.Asking.{Coming};

    type Socket: Socket;

    // Those that aren't accepted yet, where it is known what comes.
    ghost ahead: { Self → List Coming };

    /// What tells which sockets are ready.
    fn registry(&self) -> &<Self::Socket as Socket>::Registry;

    /// Whether all are accepted that are to be.
    fn is_done(&self) -> bool
        ensures { IsTrue result → IsTrue Self.Socket.is_known → ahead self.now ≡ [] };

    /// Whether one is to be accepted now.
    fn may_accept(&self) -> bool;

    /// Accepts one without waiting. An error is a network that accepts nobody any more.
    fn accept(&mut self) -> io::Result<AcceptOutcome<Self::Socket>>
        ensures accepts { IsTrue Self.Socket.is_known
            → Accepts Self.Socket.coming (ahead self.old) (ahead self.new) result }
        ensures fresh { IsTrue Self.Socket.is_known
            → AreFresh Self.Socket.coming Self.Socket.input Self.Socket.taken result };

    /// Waits for one, and a moment for its request; with it comes the moment at which it was accepted, and how many
    /// bytes were read into the piece. None where it didn't stay, or where accepting failed, behind the moment after
    /// which it may go well.
    fn accept_alone(
        &mut self,
        piece: &mut [u8],
    ) -> io::Result<Option<(Self::Socket, Moment, usize)>>
        ensures bound { IsWithin (length piece.new) result }
        ensures accepts { IsTrue Self.Socket.is_known
            → AcceptsAlone Self.Socket.coming (ahead self.old) (ahead self.new) piece.new result }
        ensures fresh { IsTrue Self.Socket.is_known
            → AreFreshAlone Self.Socket.coming Self.Socket.input Self.Socket.taken piece.new result };

    /// Waits until a socket is ready, one may be accepted or so long has passed.
    fn wait(&mut self, patience: Option<Duration>) -> io::Result<()>
        ensures { ahead self.new ≡ ahead self.old };

    /// The key of a socket that may be ready since the last wait; none where each was told.
    fn next_ready(&mut self) -> Option<usize>
        ensures { ahead self.new ≡ ahead self.old };

    /// How long it is since this began.
    fn now(&mut self) -> io::Result<Duration>
        ensures { ahead self.new ≡ ahead self.old };

    /// Accepts nobody any more.
    fn close(&mut self)
        ensures { IsTrue Self.Socket.is_known → Loses (ahead self.old) (ahead self.new) };
}
