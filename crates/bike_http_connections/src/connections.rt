//! Accepting, waiting, and whose turn it is.

ghost use Rattle.std.specs.Prelude.{◌≡◌, ◌∷◌, ◌-◌, map, IsTrue, IfOk, Some, None, if◌then◌else◌};
ghost use Rattle.std.specs.Duration.{as_nanos};
ghost use Rattle.bike_http_connection.specs.Connected.{begun_as, peer_as, answered};
ghost use Rattle.bike_http_connections.specs.Ahead.{Loses, Stay, StayBut, fresh, ahead_of};
ghost use Rattle.bike_http_connections.specs.Handed.{Gives, Hands, HandsOver, AreWhole};
ghost use Rattle.bike_http_connections.specs.Turns.{nanos, sooner_of, time_until};
ghost use Rattle.bike_http_connections.specs.Ending.{EndsFirst};
ghost use Rattle.bike_http_connections.specs.Table.{HasWork};

use crate::limits::TURN;
use crate::network::{AcceptOutcome, Network};
use crate::open::Open;
use crate::times::{Pause, sooner};
use crate::turns::Turn;
use bike_fixed::Moment;
use bike_http_connection::{Connection, Exchange, PIECE, Peer, ResponseBuffer, Socket};
use std::alloc::Global;
use std::io;
use std::io::ErrorKind;
use std::marker::Model;
use std::time::Duration;

/// The connections of a network; seen as the clients that are connected, and those that aren't accepted yet.
#[derive(Drop)]
pub struct Connections<N: Network> {
    alloc: Global,
    network: N,
    connections: Open<N::Socket>,
    /// When this turn began.
    now: Duration,
    /// What is still handed out in this turn.
    left: Turn,
    /// While it lasts nobody is accepted, since accepting failed.
    pause: Pause,
}

impl<N: Network> Model for Connections<N> {
    ghost use Rattle.std.specs.Prelude.{List, ◌++◌, map};
    ghost use Rattle.bike_http_connection.specs.Connected.{Connected};
    ghost use Rattle.bike_http_connections.specs.Ahead.{fresh};
    ghost use Rattle.bike_http_connections.specs.Table.{clients_of};

    ghost Value = { List Connected };

    ghost view = { λ c. clients_of c.connections ++ map fresh (N.ahead c.network) };
}

/// For how long is waited: not at all where something is to be done, and else until the sooner of two moments.
fn time_to_wait(
    has_work: bool,
    patience: Option<Duration>,
    accepts_in: Option<Duration>,
) -> Option<Duration>
    ensures { nanos result ≡ (if has_work then Some 0 else sooner_of (nanos patience) (nanos accepts_in)) }
{
    if has_work {
        return Some(Duration::ZERO);
    }
    match accepts_in {
        Some(end) => sooner(patience, end),
        None => patience,
    }
}

/// For how long is waited at most, where one more may have a place: until one of those that are open is given up.
fn patience<S: Socket>(
    connections: &Open<S>,
    has_place: bool,
    pause: Pause,
    now: Duration,
) -> Option<Duration>
    ensures at_once { HasWork connections.now → nanos result ≡ Some 0 }
    ensures later { (HasWork connections.now → ⊥)
        → nanos result ≡ sooner_of (time_until connections.now.soonest (as_nanos now))
        (if has_place then Some (as_nanos pause.end - as_nanos now) else None) }
    ensures in_time { EndsFirst (nanos result) (as_nanos now) connections.now.opened }
{
    let accepts_in = pause.accepts_in(has_place, now);
    let patience = connections.patience(now);
    time_to_wait(connections.has_work(), patience, accepts_in)
}

impl<N: Network> Connections<N> {
    /// None is open. Takes the memory for all that may be.
    pub fn new(alloc: Global, network: N) -> io::Result<Connections<N>>
        ensures ahead { IfOk result (λ made. ahead_of made ≡ N.ahead network) }
        ensures clients { IfOk result (λ made. made ≡ map fresh (N.ahead network)) }
    {
        let connections = Open::new(alloc)?;
        Ok(Connections {
            alloc,
            network,
            connections,
            now: Duration::ZERO,
            left: Turn::over(),
            pause: Pause::none(),
        })
    }

    /// Takes in a connection that was accepted at this moment, and of whose request this came.
    fn take_in(&mut self, socket: N::Socket, moment: Moment, came: &[u8])
        ensures kept { IsTrue N.Socket.is_known
            → Loses (begun_as N.Socket.input N.Socket.coming N.Socket.taken socket moment came.now ∷ self.old)
            self.new }
        ensures others { Stay self.old self.new }
    {
        let Ok(connection) = Connection::begin(self.alloc, socket, moment, self.now, came) else {
            return;
        };
        self.connections
            .insert(self.network.registry(), connection, self.now);
    }

    /// Accepts one that waits; whether there may be more.
    fn accept_one(&mut self) -> io::Result<bool>
        ensures { IsTrue N.Socket.is_known → Loses self.old self.new }
    {
        match self.network.accept()? {
            AcceptOutcome::One(socket, moment) => {
                self.take_in(socket, moment, &[]);
                Ok(true)
            }
            AcceptOutcome::Lost => Ok(true),
            AcceptOutcome::Nobody => Ok(false),
            AcceptOutcome::Failed => {
                self.put_off_accepting();
                Ok(false)
            }
        }
    }

    /// Accepts nobody for a moment.
    fn put_off_accepting(&mut self)
        ensures { self.new ≡ self.old }
    {
        self.pause.begin(self.now);
    }

    /// Whether somebody may wait to be accepted, and there is room for one more.
    fn has_place(&self) -> bool {
        self.network.may_accept() && self.connections.has_room()
    }

    /// Accepts those that wait, as far as there is room.
    fn accept_some(&mut self) -> io::Result<()>
        ensures { IsTrue N.Socket.is_known → Loses self.old self.new }
    {
        for _turn in 0..TURN {
            if !self.has_place() || !self.pause.is_over(self.now) {
                return Ok(());
            }
            if !self.accept_one()? {
                return Ok(());
            }
        }
        Ok(())
    }

    /// Reads the clock.
    fn read_clock(&mut self) -> io::Result<()>
        ensures { self.new ≡ self.old }
    {
        self.now = self.network.now()?;
        Ok(())
    }

    /// Where none is open: waits for one, and a moment for its request.
    fn accept_alone(&mut self) -> io::Result<()>
        ensures { IsTrue N.Socket.is_known → Loses self.old self.new }
    {
        let mut piece = [0; PIECE];
        let accepted = self.network.accept_alone(&mut piece)?;
        self.read_clock()?;
        let Some((socket, moment, count)) = accepted else {
            return Ok(());
        };
        self.take_in(socket, moment, &piece[..count]);
        Ok(())
    }

    /// Goes on with one whose socket is ready; whether there was one.
    fn step_one(&mut self) -> bool
        ensures kept { IsTrue N.Socket.is_known → Loses self.old self.new }
        ensures others { StayBut 1 self.old self.new }
    {
        let Some(key) = self.network.next_ready() else {
            return false;
        };
        self.connections
            .step(self.network.registry(), key, self.now);
        true
    }

    /// Goes on with those whose socket is ready.
    fn step_ready(&mut self)
        ensures kept { IsTrue N.Socket.is_known → Loses self.old self.new }
        ensures others { StayBut TURN self.old self.new }
    {
        for _turn in 0..TURN {
            if !self.step_one() {
                return;
            }
        }
    }

    /// Goes on with those that were put off.
    fn go_on(&mut self)
        ensures { IsTrue N.Socket.is_known → Loses self.old self.new }
    {
        self.connections.go_on(self.network.registry(), self.now);
    }

    /// Waits until a socket is ready or somebody's time is over.
    fn wait(&mut self) -> io::Result<()>
        ensures { self.new ≡ self.old }
    {
        let has_place = self.has_place();
        let patience = patience(&self.connections, has_place, self.pause, self.now);
        self.network.wait(patience)
    }

    /// Goes on with those that can.
    fn step_all(&mut self) -> io::Result<()>
        ensures { IsTrue N.Socket.is_known → Loses self.old self.new }
    {
        self.wait()?;
        self.step_ready();
        self.go_on();
        Ok(())
    }

    /// Ends those whose time is over.
    fn give_up(&mut self)
        ensures { Loses self.old self.new }
    {
        self.connections.give_up(self.now);
    }

    /// One turn where some are open: everybody goes on as far as that is possible now.
    fn turn_of_many(&mut self) -> io::Result<()>
        ensures { IsTrue N.Socket.is_known → Loses self.old self.new }
    {
        self.step_all()?;
        self.read_clock()?;
        self.accept_some()?;
        self.give_up();
        Ok(())
    }

    /// One turn.
    fn turn(&mut self) -> io::Result<()>
        ensures { IsTrue N.Socket.is_known → Loses self.old self.new }
    {
        self.left = Turn::begin();
        if self.connections.is_empty() {
            self.accept_alone()
        } else {
            self.turn_of_many()
        }
    }

    /// The next of those that ask for no feed, in this turn.
    fn next_short(&mut self) -> Option<(Exchange<N::Socket>, ResponseBuffer)>
        ensures { Gives N.Socket.is_known N.Socket.input N.Socket.coming N.Socket.taken
            self.old self.new result }
    {
        if !self.left.take_answer() {
            return None;
        }
        self.connections.next(false)
    }

    /// The next of those that may ask for a feed, of which each turn has one.
    fn next_long(&mut self) -> Option<(Exchange<N::Socket>, ResponseBuffer)>
        ensures { Gives N.Socket.is_known N.Socket.input N.Socket.coming N.Socket.taken
            self.old self.new result }
    {
        if !self.left.take_feed() {
            return None;
        }
        self.connections.next(true)
    }

    /// The next of those whose request is there in this turn.
    fn next_in_turn(&mut self) -> Option<(Exchange<N::Socket>, ResponseBuffer)>
        ensures { Gives N.Socket.is_known N.Socket.input N.Socket.coming N.Socket.taken
            self.old self.new result }
    {
        let next = self.next_short();
        if next.is_some() {
            return next;
        }
        self.next_long()
    }

    /// The next connection whose request is whole, in the order in which they were, but that one feed a turn comes
    /// behind the others. With it comes what takes its answer. None once all are over that were to be accepted. An
    /// error is a network that fails. What others took meanwhile is the next of their answers, and what they are still
    /// to take is the rest of them.
    pub fn next(&mut self) -> io::Result<Option<(Exchange<N::Socket>, ResponseBuffer)>>
        ensures hands { IsTrue N.Socket.is_known
            → Hands N.Socket.coming (ahead_of self.old) (ahead_of self.new) result }
        ensures clients { IsTrue N.Socket.is_known
            → HandsOver N.Socket.input N.Socket.coming N.Socket.taken self.old self.new result }
        ensures whole { AreWhole N.Socket.is_known N.Socket.coming result }
    {
        for _turn in 0..u64::MAX {
            match self.next_in_turn() {
                Some(next) => return Ok(Some(next)),
                None => {}
            }
            if self.network.is_done() && self.connections.is_empty() {
                return Ok(None);
            }
            if let Err(error) = self.turn() {
                return Err(error);
            }
        }
        Err(ErrorKind::Other.into())
    }

    /// Takes a connection back with its answer, which goes out to its own client as that takes it, once. It may have
    /// been made before all of the request was read (`is_early`): then what comes still is read for a moment.
    pub fn finish(&mut self, peer: Peer<N::Socket>, answer: ResponseBuffer, is_early: bool)
        ensures ahead { IsTrue N.Socket.is_known → Loses (ahead_of self.old) (ahead_of self.new) }
        ensures clients { IsTrue N.Socket.is_known
            → Loses (answered (peer_as N.Socket.input N.Socket.taken peer) answer ∷ self.old) self.new }
        ensures others { Stay self.old self.new }
    {
        let connection = peer.into_answered(answer, is_early);
        self.connections
            .insert(self.network.registry(), connection, self.now);
    }

    /// Accepts nobody any more, and ends those that have no answer under way. The others have no longer than this.
    fn begin_closing(&mut self, end: Duration)
        ensures { IsTrue N.Socket.is_known → Loses self.old self.new }
    {
        self.network.close();
        self.connections.close(end);
    }

    /// One turn of closing; whether none is open any more.
    fn turn_of_closing(&mut self) -> io::Result<bool>
        ensures { IsTrue N.Socket.is_known → Loses self.old self.new }
    {
        self.read_clock()?;
        self.give_up();
        if self.connections.is_empty() {
            return Ok(true);
        }
        self.step_all()?;
        Ok(false)
    }

    /// Accepts and reads no more, and sends the answers under way for so long at most.
    pub fn close(&mut self, patience: Duration) -> io::Result<()>
        ensures { IsTrue N.Socket.is_known → Loses self.old self.new }
    {
        self.read_clock()?;
        self.begin_closing(self.now.saturating_add(patience));
        for _turn in 0..u64::MAX {
            if self.turn_of_closing()? {
                return Ok(());
            }
        }
        Ok(())
    }
}
