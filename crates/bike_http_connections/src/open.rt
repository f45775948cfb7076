//! The connections that are open.

ghost use Rattle.std.specs.Prelude.{◌≡◌, ◌<◌, ◌≤◌, ◌↔◌, ◌+◌, ◌-◌, ◌*◌, [], ◌∷◌, length, min, Some};
ghost use Rattle.std.specs.Prelude.{IsTrue, false, IfOk, IfSome, IfNone};
ghost use Rattle.std.specs.Duration.{as_nanos, max_nanos};
ghost use Rattle.bike_http_connection.specs.Connected.{IsRequest, handed_as};
ghost use Rattle.bike_http_connections.specs.Ahead.{Loses, Stay, StayBut};
ghost use Rattle.bike_http_connections.specs.Handed.{Gives};
ghost use Rattle.bike_http_connections.specs.Ending.{clients_in, NoneSooner, IsOfOne, EndsLate, EndsLateAt};
ghost use Rattle.bike_http_connections.specs.Ending.{in_time, ComesFirst, EndsFirst};
ghost use Rattle.bike_http_connections.specs.Kept.{blocks_in, GivesOut, TakesIn, TakesInBy, ComesIn};
ghost use Rattle.bike_http_connections.specs.Turns.{nanos, sooner_of, time_until};
ghost use Rattle.bike_http_connections.specs.Table.{clients_of, queue_of, KeepsOpened, HasTurn, HasWork};

use crate::counted::CountedConnection;
use crate::limits::MOST_OPEN;
use crate::room::Room;
use crate::times::Deadlines;
use crate::turns::Queues;
use bike_http_connection::{BLOCK, Connection, Exchange, ResponseBuffer, Socket, Step};
use slab::Slab;
use std::alloc::{AllocError, Global};
use std::marker::Model;
use std::time::Duration;

/// For how many milliseconds a client is waited for in all that may still send of a request which was answered before
/// all of it was read.
const LINGER: u64 = 200;

/// The connections that are open, by their keys; seen as a table of them, of their deadlines and of those that go on.
#[derive(Drop)]
pub(crate) struct Open<S: Socket> {
    alloc: Global,
    connections: Slab<CountedConnection<S>>,
    queues: Queues,
    room: Room,
    deadlines: Deadlines,
}

impl<S: Socket> Model for Open<S> {
    ghost use Rattle.bike_http_connections.specs.Ahead.{open_in};
    ghost use Rattle.bike_http_connections.specs.Ending.{IsNoted};
    ghost use Rattle.bike_http_connections.specs.Turns.{nanos};
    ghost use Rattle.bike_http_connections.specs.Table.{Table};

    ghost Value = { Table };

    ghost view = { λ o. record {
      opened = open_in o.connections.slots;
      soonest = nanos o.deadlines.soonest;
      ready = o.queues.ready.items;
      feeds = o.queues.feeds.items;
      going = o.queues.going.items;
    } };

    // None of them is given up before the soonest of the deadlines, the room that is taken is that of all of them, and
    // as many as may be open have a place.
    ghost invariant = { λ o. IsNoted (nanos o.deadlines.soonest) o.room.held o.connections };
}

/// The deadlines of those that are open.
fn deadlines_of<S: Socket>(connections: &Slab<CountedConnection<S>>) -> Deadlines
    ensures all { NoneSooner (nanos result.soonest) connections.now }
    ensures some { IsOfOne (nanos result.soonest) connections.now }
{
    let mut deadlines = Deadlines::none();
    for key in 0..connections.capacity() {
        if let Some(entry) = connections.get(key) {
            deadlines.note(entry.end());
        }
    }
    deadlines
}

/// Ends the connection of this key where its time is over.
fn end_where_late<S: Socket>(
    connections: &mut Slab<CountedConnection<S>>,
    room: &mut Room,
    key: usize,
    now: Duration,
)
    ensures lost { Loses (clients_in connections.old.slots) (clients_in connections.new.slots) }
    ensures late { EndsLateAt (as_nanos now) connections.old connections.new key }
    ensures places { connections.new.capacity ≡ connections.old.capacity }
    ensures room { room.old.held ≡ blocks_in connections.old → room.new.held ≡ blocks_in connections.new }
{
    let is_late = match connections.get(key) {
        Some(entry) => entry.end().as_nanos() <= now.as_nanos(),
        None => false,
    };
    if is_late {
        if let Some(entry) = connections.try_remove(key) {
            room.give_back(entry.counted());
        }
    }
}

/// Ends those whose time is over, and no other.
fn end_late<S: Socket>(connections: &mut Slab<CountedConnection<S>>, room: &mut Room, now: Duration)
    ensures lost { Loses (clients_in connections.old.slots) (clients_in connections.new.slots) }
    ensures late { EndsLate (as_nanos now) connections.old connections.new }
    ensures places { connections.new.capacity ≡ connections.old.capacity }
    ensures room { room.old.held ≡ blocks_in connections.old → room.new.held ≡ blocks_in connections.new }
{
    for key in 0..connections.capacity() {
        end_where_late(connections, room, key, now);
    }
}

impl<S: Socket> Open<S> {
    /// None is open. Takes the memory for all that may be.
    #[tactic(auto, using(crate::proofs::Ending::nobody_noted))]
    pub(crate) fn new(alloc: Global) -> Result<Open<S>, AllocError>
        ensures { IfOk result (λ none. none.opened ≡ []) }
    {
        Ok(Open {
            alloc,
            connections: Slab::with_capacity(alloc, MOST_OPEN)?,
            queues: Queues::new(alloc)?,
            room: Room::new(),
            deadlines: Deadlines::none(),
        })
    }

    /// Whether none is open.
    pub(crate) fn is_empty(&self) -> bool
        ensures { IsTrue result → self.now.opened ≡ [] }
    {
        self.connections.is_empty()
    }

    /// Whether one more may be.
    pub(crate) fn has_room(&self) -> bool
        ensures { IsTrue result ↔ length self.now.opened < MOST_OPEN }
    {
        self.connections.len() < MOST_OPEN
    }

    /// Whether something is to be done without waiting for a socket.
    pub(crate) fn has_work(&self) -> bool
        ensures { IsTrue result ↔ HasWork self.now }
    {
        self.queues.has_work(self.room.fits_feed())
    }

    /// For how long there is nothing to do unless a socket gets ready; none where that is for ever.
    pub(crate) fn patience(&self, now: Duration) -> Option<Duration>
        ensures exact { nanos result ≡ time_until self.now.soonest (as_nanos now) }
        ensures soonest { ComesFirst self.now.soonest self.now.opened }
        ensures in_time { EndsFirst (nanos result) (as_nanos now) self.now.opened }
    {
        self.deadlines.patience(now)
    }

    /// Has a connection go on in the next turn; false where it has no room there.
    fn put_off(&mut self, key: usize, connection: &mut Connection<S>) -> bool
        ensures same { connection.new ≡ connection.old }
        ensures kept { self.new ≡ record self.old { going = self.new.going } }
        ensures few { length self.old.going < MOST_OPEN → IsTrue result }
    {
        connection.set_going(true);
        self.queues.put_off(key)
    }

    /// The same, unless it goes on already.
    fn goes_on(&mut self, key: usize, connection: &mut Connection<S>) -> bool
        ensures same { connection.new ≡ connection.old }
        ensures kept { self.new ≡ record self.old { going = self.new.going } }
        ensures few { length self.old.going < MOST_OPEN → IsTrue result }
    {
        if connection.is_going() {
            return true;
        }
        self.put_off(key, connection)
    }

    /// Has a connection read for a moment what its client still sends, where that was answered early; false where it
    /// was not, or has no room.
    fn lingers(&mut self, key: usize, connection: &mut Connection<S>, now: Duration) -> bool
        ensures same { connection.new.who ≡ connection.old.who }
        ensures end { IsTrue result → as_nanos connection.new.end
            ≡ min (as_nanos connection.old.end) (min (as_nanos now + LINGER * 1_000_000) max_nanos) }
        ensures sooner { as_nanos connection.new.end ≤ as_nanos connection.old.end }
        ensures kept { self.new ≡ record self.old { going = self.new.going } }
    {
        if !connection.is_early() {
            return false;
        }
        connection.linger();
        connection.end_by(now.saturating_add(Duration::from_millis(LINGER)));
        self.put_off(key, connection)
    }

    /// Puts a connection where it has its next turn; false where it is over, or has no room there.
    fn is_kept(
        &mut self,
        registry: &S::Registry,
        key: usize,
        connection: &mut Connection<S>,
        step: Step,
        now: Duration,
    ) -> bool
        // The connection: it is given up sooner where it lingers, and else it is as it was.
        ensures same { connection.new.who ≡ connection.old.who }
        ensures unchanged { (step ≡ Step.Sent → ⊥) → connection.new ≡ connection.old }
        ensures lingers { step ≡ Step.Sent → IsTrue result → as_nanos connection.new.end
            ≡ min (as_nanos connection.old.end) (min (as_nanos now + LINGER * 1_000_000) max_nanos) }
        ensures sooner { as_nanos connection.new.end ≤ as_nanos connection.old.end }
        // Those that are open, which stay as they are, and its turn.
        ensures kept { KeepsOpened self.old self.new }
        ensures ended { step ≡ Step.Over → result ≡ false }
        ensures turn { HasTurn step self.old → IsTrue result }
    {
        match step {
            Step::Waits => connection.watch(registry, key).is_ok(),
            Step::Rests => true,
            Step::GoesOn => self.goes_on(key, connection),
            Step::Settled => self.queues.add(key, connection.may_be_feed()),
            Step::Sent => self.lingers(key, connection, now),
            Step::Over => false,
        }
    }

    /// Keeps a connection that got so far, with its next turn; it ends where it is over, or has no room.
    fn keep(&mut self, registry: &S::Registry, connection: Connection<S>, step: Step, now: Duration)
        // The connection: it comes in unless it is over, waits for a socket, was sent, or has no room.
        ensures kept { Loses (connection.who ∷ clients_of self.old) (clients_of self.new) }
        ensures time { TakesInBy connection self.old.opened self.new.opened }
        ensures comes_in { HasTurn step self.old → length self.old.opened < MOST_OPEN
            → ComesIn connection self.old.opened self.new.opened }
        ensures ended { step ≡ Step.Over → self.new.opened ≡ self.old.opened }
        // The others.
        ensures others { Stay self.old.opened self.new.opened }
    {
        let mut connection = connection;
        let key = self.connections.vacant_key();
        if self.is_kept(registry, key, &mut connection, step, now) {
            self.put_back(connection);
        }
    }

    /// Goes on with a connection as far as its socket is ready, and keeps it where it isn't over.
    pub(crate) fn insert(
        &mut self,
        registry: &S::Registry,
        connection: Connection<S>,
        now: Duration,
    )
        ensures kept { IsTrue S.is_known → Loses (connection.who ∷ clients_of self.old) (clients_of self.new) }
        ensures time { TakesInBy connection self.old.opened self.new.opened }
        ensures others { Stay self.old.opened self.new.opened }
    {
        let (connection, step) = connection.step();
        self.keep(registry, connection, step, now);
    }

    /// Takes a connection out.
    fn remove(&mut self, key: usize) -> Option<Connection<S>>
        ensures taken { IfSome result (λ connection.
            Loses (clients_of self.old) (connection.who ∷ clients_of self.new)) }
        ensures whole { IfSome result (λ connection. GivesOut connection self.old.opened self.new.opened) }
        ensures none { IfNone result (self.new ≡ self.old) }
        ensures noted { self.new ≡ record self.old { opened = self.new.opened } }
    {
        let entry = self.connections.try_remove(key)?;
        self.room.give_back(entry.counted());
        Some(entry.into_connection())
    }

    /// Puts a connection in as it is, and notes when it is given up.
    fn put_back(&mut self, connection: Connection<S>)
        // Those that are open: it comes in where it has a place, and the others stay.
        ensures kept { Loses (connection.who ∷ clients_of self.old) (clients_of self.new) }
        ensures whole { TakesIn connection self.old.opened self.new.opened }
        ensures others { Stay self.old.opened self.new.opened }
        ensures comes_in { length self.old.opened < MOST_OPEN → ComesIn connection self.old.opened self.new.opened }
        // What is noted of them.
        ensures noted { self.new.soonest ≡ sooner_of self.old.soonest (Some (as_nanos connection.end)) }
        ensures turns { self.new ≡ record self.old { opened = self.new.opened; soonest = self.new.soonest } }
    {
        self.deadlines.note(connection.end());
        let blocks = self.room.take(connection.blocks());
        let entry = CountedConnection::new(connection, blocks);
        if self.connections.insert(entry).is_err() {
            self.room.give_back(blocks);
        }
    }

    /// Goes on with a connection whose socket may be ready.
    pub(crate) fn step(&mut self, registry: &S::Registry, key: usize, now: Duration)
        ensures kept { IsTrue S.is_known → Loses (clients_of self.old) (clients_of self.new) }
        ensures others { StayBut 1 self.old.opened self.new.opened }
    {
        if let Some(connection) = self.remove(key) {
            self.insert(registry, connection, now);
        }
    }

    /// Goes on with one of those that were put off.
    fn go_on_with(&mut self, registry: &S::Registry, key: usize, now: Duration)
        ensures kept { IsTrue S.is_known → Loses (clients_of self.old) (clients_of self.new) }
        ensures others { StayBut 1 self.old.opened self.new.opened }
    {
        if let Some(mut connection) = self.remove(key) {
            connection.set_going(false);
            self.insert(registry, connection, now);
        }
    }

    /// Goes on with those that were put off.
    pub(crate) fn go_on(&mut self, registry: &S::Registry, now: Duration)
        ensures kept { IsTrue S.is_known → Loses (clients_of self.old) (clients_of self.new) }
        ensures others { StayBut (length self.old.going) self.old.opened self.new.opened }
    {
        for _turn in 0..self.queues.count_put_off() {
            let Some(key) = self.queues.next_put_off() else {
                return;
            };
            self.go_on_with(registry, key, now);
        }
    }

    /// Takes a connection out that asks for this kind of answer, and whose request is there. Another stays.
    fn take_request(&mut self, key: usize, is_feed: bool) -> Option<Exchange<S>>
        // The connection, or none.
        ensures taken { IfSome result (λ exchange. Loses (clients_of self.old)
            (handed_as S.input S.coming S.taken exchange ∷ clients_of self.new)) }
        ensures whole { IfSome result (λ exchange. IsRequest S.is_known S.coming exchange) }
        ensures lost { IfNone result (Loses (clients_of self.old) (clients_of self.new)) }
        ensures stay { length self.old.opened ≤ MOST_OPEN
            → IfNone result (Stay (clients_of self.old) (clients_of self.new)) }
        // The others.
        ensures others { StayBut 1 self.old.opened self.new.opened }
        ensures turns { self.new ≡ record self.old { opened = self.new.opened; soonest = self.new.soonest } }
    {
        let connection = self.remove(key)?;
        if connection.may_be_feed() != is_feed {
            self.put_back(connection);
            return None;
        }
        match connection.into_exchange() {
            Ok(exchange) => Some(exchange),
            Err(connection) => {
                self.put_back(connection);
                None
            }
        }
    }

    /// Hands a connection out, with room for so many blocks of an answer; none where its request isn't there, or asks
    /// for another kind of answer, or where memory is refused, which ends the connection.
    fn hand_out(
        &mut self,
        key: usize,
        is_feed: bool,
        blocks: usize,
    ) -> Option<(Exchange<S>, ResponseBuffer)>
        ensures gives { Gives S.is_known S.input S.coming S.taken (clients_of self.old) (clients_of self.new) result }
        ensures others { StayBut 1 self.old.opened self.new.opened }
        ensures turns { self.new ≡ record self.old { opened = self.new.opened; soonest = self.new.soonest } }
    {
        let exchange = self.take_request(key, is_feed)?;
        match ResponseBuffer::new(self.alloc, blocks.saturating_mul(BLOCK)) {
            Ok(answer) => Some((exchange, answer)),
            Err(AllocError) => None,
        }
    }

    /// The next of those that may ask for a feed, or of the others. A feed is handed out where there is room for the
    /// longest.
    pub(crate) fn next(&mut self, is_feed: bool) -> Option<(Exchange<S>, ResponseBuffer)>
        ensures gives { Gives S.is_known S.input S.coming S.taken (clients_of self.old) (clients_of self.new) result }
        ensures others { StayBut (length (queue_of is_feed self.old) - length (queue_of is_feed self.new))
            self.old.opened self.new.opened }
    {
        if is_feed && !self.room.fits_feed() {
            return None;
        }
        let blocks = self.room.blocks_for(is_feed);
        for _turn in 0..MOST_OPEN {
            let Some(key) = self.queues.next(is_feed) else {
                return None;
            };
            let next = self.hand_out(key, is_feed, blocks);
            if next.is_some() {
                return next;
            }
        }
        None
    }

    /// Ends those whose time is over, and no other.
    pub(crate) fn give_up(&mut self, now: Duration)
        ensures lost { Loses (clients_of self.old) (clients_of self.new) }
        ensures late { self.new.opened ≡ in_time (as_nanos now) self.old.opened }
        ensures others { self.new ≡ record self.old { opened = self.new.opened; soonest = self.new.soonest } }
    {
        if !self.deadlines.have_come(now) {
            return;
        }
        end_late(&mut self.connections, &mut self.room, now);
        self.deadlines = deadlines_of(&self.connections);
    }

    /// Ends a connection that has no answer under way, and gives it no longer than this where it has.
    fn close_one(&mut self, key: usize, end: Duration)
        ensures { Loses (clients_of self.old) (clients_of self.new) }
    {
        let Some(mut connection) = self.remove(key) else {
            return;
        };
        connection.end_by(end);
        if connection.is_answered() {
            self.put_back(connection);
        }
    }

    /// Ends those that have no answer under way, and gives the others no longer than this.
    pub(crate) fn close(&mut self, end: Duration)
        ensures { Loses (clients_of self.old) (clients_of self.new) }
    {
        self.queues.close();
        for key in 0..self.connections.capacity() {
            self.close_one(key, end);
        }
    }
}
