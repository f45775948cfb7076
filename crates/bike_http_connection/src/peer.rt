//! The client of a connection.

ghost use Rattle.std.specs.Prelude.{◌≡◌, ◌+◌, ◌*◌, min, OnOk};
ghost use Rattle.std.specs.Duration.{as_nanos, max_nanos};
ghost use Rattle.bike_http_connection.specs.Connected.{peer_as, answered};

use crate::answer::ResponseBuffer;
use crate::connection::Connection;
use crate::limits::PATIENCE;
use crate::socket::{Socket, Wants};
use bike_fixed::Moment;
use std::io;
use std::time::Duration;

/// What the system tells of a socket.
#[derive(Clone, Copy, PartialEq, Eq)]
enum Interest {
    Nothing,
    /// When it is ready for this, by this key.
    Ready(Wants, usize),
}

/// A client's socket, the moment at which its connection was accepted, and when it is given up, since this began.
#[derive(Drop)]
pub struct Peer<S> {
    pub(crate) socket: S,
    pub(crate) moment: Moment,
    end: Duration,
    watched: Interest,
}

impl<S: Socket> Peer<S> {
    /// A socket that was accepted at this moment, which is now.
    pub(crate) fn new(socket: S, moment: Moment, now: Duration) -> Peer<S>
        ensures socket { result.socket ≡ socket }
        ensures moment { result.moment ≡ moment }
        ensures end { as_nanos result.end ≡ min (as_nanos now + PATIENCE * 1_000_000_000) max_nanos }
    {
        Peer {
            socket,
            moment,
            end: now.saturating_add(Duration::from_secs(PATIENCE)),
            watched: Interest::Nothing,
        }
    }

    /// When the connection was accepted.
    pub fn moment(&self) -> Moment
        ensures { result ≡ self.now.moment }
    {
        self.moment
    }

    /// The connection with its answer, which may have been made before all of the request was read (`is_early`).
    pub fn into_answered(self, answer: ResponseBuffer, is_early: bool) -> Connection<S>
        ensures who { result.who ≡ answered (peer_as S.input S.taken self) answer }
        ensures end { result.end ≡ self.end }
    {
        Connection::sending(self, answer, is_early)
    }

    /// When it is given up.
    pub(crate) fn end(&self) -> Duration
        ensures { result ≡ self.now.end }
    {
        self.end
    }

    /// Gives it up no later than at this moment.
    pub(crate) fn end_by(&mut self, end: Duration)
        ensures others { self.new ≡ record self.old { end = self.new.end } }
        ensures sooner { as_nanos self.new.end ≡ min (as_nanos self.old.end) (as_nanos end) }
    {
        if end < self.end {
            self.end = end;
        }
    }

    /// Has the system tell by this key when the socket is ready for what is wanted from now on.
    pub(crate) fn watch(
        &mut self,
        registry: &S::Registry,
        key: usize,
        wants: Wants,
    ) -> io::Result<()>
        // What the system is to tell.
        ensures told { OnOk result (self.new.watched ≡ Interest.Ready wants key) }
        // Who it is, what it sends and took, and when it is given up, stays.
        ensures kept { S.coming self.new.socket ≡ S.coming self.old.socket }
        ensures moment { self.new.moment ≡ self.old.moment }
        ensures end { self.new.end ≡ self.old.end }
        ensures own { S.input self.new.socket ≡ S.input self.old.socket }
        ensures taken { S.taken self.new.socket ≡ S.taken self.old.socket }
    {
        let wanted = Interest::Ready(wants, key);
        let before = self.watched;
        if before == wanted {
            return Ok(());
        }
        self.watched = wanted;
        self.socket
            .watch(registry, key, wants, before == Interest::Nothing)
    }
}
