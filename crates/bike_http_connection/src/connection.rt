//! What a connection is about.

ghost use Rattle.std.specs.Prelude.{◌≡◌, ◌++◌, ◌+◌, ◌*◌, [], min, IsTrue, IsFalse, IfOk, IfErr};
ghost use Rattle.std.specs.Duration.{as_nanos, max_nanos};
ghost use Rattle.bike_http_connection.specs.Connected.{left_in, awaited_in, IsUnderWay, IsReady, IsRequest};
ghost use Rattle.bike_http_connection.specs.Connected.{connected_as, opened_as, begun_as, handed_as};
ghost use Rattle.bike_http_connection.specs.Asking.{AsksAs, unread, coming_from};

use crate::answer::ResponseBuffer;
use crate::exchange::Exchange;
use crate::gathering::Gathering;
use crate::limits::{MOST_CALLS, PATIENCE, PIECE};
use crate::peer::Peer;
use crate::request::RequestReader;
use crate::socket::{Socket, Wants};
use bike_fixed::Moment;
use std::alloc::{AllocError, Global};
use std::io;
use std::io::ErrorKind;
use std::marker::Model;
use std::time::Duration;

/// In how many pieces is read at most what a client still sends once it is answered.
const MOST_PIECES: u32 = 64;

/// How far a connection got.
#[derive(Clone, Copy, PartialEq, Eq)]
pub enum Step {
    /// It waits for its socket.
    Waits,
    /// There may be more to do at once, but others come first.
    GoesOn,
    /// No more of its request is wanted.
    Settled,
    /// Its client took the answer.
    Sent,
    /// It has nothing to do.
    Rests,
    /// It failed, or is done.
    Over,
}

/// What a connection is about.
#[derive(Drop)]
pub(crate) enum State {
    /// Its request comes.
    Gathering(Gathering),
    /// Its request is there.
    Ready(Gathering),
    /// Its answer goes out. It may have been made before all of the request was read.
    Sending {
        answer: ResponseBuffer,
        is_early: bool,
    },
    /// It was answered before all of its request was read, and what comes still is read in so many pieces.
    Lingering {
        pieces: u32,
    },
}

/// A connection; seen as its client, of whom it is known what is still to be answered and what is taken, with the
/// moment at which it is given up, and whether it may ask for a feed.
#[derive(Drop)]
pub struct Connection<S: Socket> {
    peer: Peer<S>,
    state: State,
    /// Whether it goes on in the next turn without being told of.
    is_going: bool,
}

impl<S: Socket> Model for Connection<S> {
    ghost use Rattle.bike_http_connection.specs.Connected.{Opened, opened_as, IsReady};

    ghost Value = { Opened };

    ghost view = { λ c. opened_as S.input S.coming S.taken c.peer c.state };

    // A request that is told as there is whole.
    ghost invariant = { λ c. IsReady S.is_known S.coming c.peer c.state };
}

/// Whether nothing more is to be sent.
fn is_sent(state: &State) -> bool
    ensures all { IsTrue result → left_in state.now ≡ [] }
    ensures some { IsFalse result → IsUnderWay state.now }
{
    match state {
        State::Sending { answer, .. } => answer.is_sent(),
        State::Gathering(_) | State::Ready(_) | State::Lingering { .. } => true,
    }
}

/// What the socket is to be ready for: writes while an answer goes out, else reads.
fn awaited(state: &State) -> Wants
    ensures { result ≡ awaited_in state.now }
{
    match state {
        State::Sending { .. } => Wants::Writes,
        State::Gathering(_) | State::Ready(_) | State::Lingering { .. } => Wants::Reads,
    }
}

/// Reads what a client still sends, and drops it.
fn linger<S: Socket>(socket: &mut S, pieces: &mut u32) -> Step
    ensures own { S.input socket.new ≡ S.input socket.old }
    ensures kept { S.taken socket.new ≡ S.taken socket.old }
{
    let mut piece = [0; PIECE];
    for _turn in 0..MOST_CALLS {
        if *pieces == 0 {
            return Step::Over;
        }
        *pieces = pieces.saturating_sub(1);
        match socket.read(&mut piece) {
            Ok(0) => return Step::Over,
            Ok(_) => {}
            Err(error) if error.kind() == ErrorKind::WouldBlock => return Step::Waits,
            Err(_) => return Step::Over,
        }
    }
    Step::GoesOn
}

/// Reads what there is of a request.
fn gather<S: Socket>(peer: Peer<S>, gathering: Gathering) -> (Peer<S>, State, Step)
    // How far its request came.
    ensures ready { IsReady S.is_known S.coming result.0 result.1 }
    ensures same { IsTrue S.is_known → (result.2 ≡ Step.Over → ⊥)
        → connected_as S.input S.coming S.taken result.0 result.1
        ≡ connected_as S.input S.coming S.taken peer (State.Gathering gathering) }
    // Who it is, and what is still to be sent to it, stays.
    ensures kept { S.input result.0.socket ≡ S.input peer.socket }
    ensures moment { result.0.moment ≡ peer.moment }
    ensures end { result.0.end ≡ peer.end }
    ensures response { IsTrue S.is_known
        → S.taken result.0.socket ++ left_in result.1 ≡ S.taken peer.socket ++ left_in (State.Gathering gathering) }
{
    let mut peer = peer;
    let mut gathering = gathering;
    let step = gathering.gather(&mut peer.socket);
    if step == Step::Settled {
        return (peer, State::Ready(gathering), step);
    }
    (peer, State::Gathering(gathering), step)
}

/// Reads or writes as far as a socket is ready.
fn go_on<S: Socket>(peer: Peer<S>, state: State) -> (Peer<S>, State, Step)
    // How far its request came.
    ensures ready { IsReady S.is_known S.coming peer state → IsReady S.is_known S.coming result.0 result.1 }
    ensures same { IsTrue S.is_known → (result.2 ≡ Step.Over → ⊥)
        → connected_as S.input S.coming S.taken result.0 result.1
        ≡ connected_as S.input S.coming S.taken peer state }
    // Who it is, and what is still to be sent to it, stays.
    ensures kept { S.input result.0.socket ≡ S.input peer.socket }
    ensures moment { result.0.moment ≡ peer.moment }
    ensures end { result.0.end ≡ peer.end }
    ensures response { IsTrue S.is_known
        → S.taken result.0.socket ++ left_in result.1 ≡ S.taken peer.socket ++ left_in state }
{
    match state {
        State::Gathering(gathering) => gather(peer, gathering),
        State::Ready(gathering) => (peer, State::Ready(gathering), Step::Rests),
        State::Sending {
            mut answer,
            is_early,
        } => {
            let mut peer = peer;
            let step = answer.send(&mut peer.socket);
            (peer, State::Sending { answer, is_early }, step)
        }
        State::Lingering { mut pieces } => {
            let mut peer = peer;
            let step = linger(&mut peer.socket, &mut pieces);
            (peer, State::Lingering { pieces }, step)
        }
    }
}

impl<S: Socket> Connection<S> {
    /// A connection that was accepted at this moment, which is now, and of whose request this came; an error where
    /// memory is refused.
    pub fn begin(
        alloc: Global,
        socket: S,
        moment: Moment,
        now: Duration,
        came: &[u8],
    ) -> Result<Connection<S>, AllocError>
        ensures who { IfOk result (λ begun. begun.who ≡ begun_as S.input S.coming S.taken socket moment came.now) }
        ensures end { IfOk result (λ begun.
            as_nanos begun.end ≡ min (as_nanos now + PATIENCE * 1_000_000_000) max_nanos) }
    {
        let peer = Peer::new(socket, moment, now);
        let mut gathering = Gathering::new(alloc);
        gathering.add(came)?;
        Ok(Connection::gathering(peer, gathering))
    }

    /// A connection of whose request this came.
    fn gathering(peer: Peer<S>, gathering: Gathering) -> Connection<S>
        ensures { result ≡ opened_as S.input S.coming S.taken peer (State.Gathering gathering) }
    {
        Connection {
            peer,
            state: State::Gathering(gathering),
            is_going: false,
        }
    }

    /// A connection that was answered. The answer may have been made before all of the request was read (`is_early`).
    pub(crate) fn sending(peer: Peer<S>, answer: ResponseBuffer, is_early: bool) -> Connection<S>
        ensures { result ≡ opened_as S.input S.coming S.taken peer (State.Sending answer is_early) }
    {
        Connection {
            peer,
            state: State::Sending { answer, is_early },
            is_going: false,
        }
    }

    /// When it is given up.
    pub fn end(&self) -> Duration
        ensures { result ≡ self.now.end }
    {
        self.peer.end()
    }

    /// Gives it up no later than at this moment.
    pub fn end_by(&mut self, end: Duration)
        ensures others { self.new ≡ record self.old { end = self.new.end } }
        ensures sooner { as_nanos self.new.end ≡ min (as_nanos self.old.end) (as_nanos end) }
    {
        self.peer.end_by(end);
    }

    /// Whether it goes on in the next turn without being told of.
    pub fn is_going(&self) -> bool {
        self.is_going
    }

    /// Has it go on in the next turn without being told of, or no longer.
    pub fn set_going(&mut self, is_going: bool)
        ensures { self.new ≡ self.old }
    {
        self.is_going = is_going;
    }

    /// How many blocks its answer holds.
    pub fn blocks(&self) -> usize {
        match &self.state {
            State::Sending { answer, .. } => answer.blocks(),
            State::Gathering(_) | State::Ready(_) | State::Lingering { .. } => 0,
        }
    }

    /// Whether it is answered.
    pub fn is_answered(&self) -> bool {
        matches!(&self.state, State::Sending { .. } | State::Lingering { .. })
    }

    /// Whether its client may still send of a request which was answered before all of it was read.
    pub fn is_early(&self) -> bool
        ensures { IsTrue result → self.now.who.ahead ≡ [] }
    {
        matches!(&self.state, State::Sending { is_early: true, .. })
    }

    /// Whether its request may ask for a feed.
    pub fn may_be_feed(&self) -> bool
        ensures { result ≡ self.now.may_be_feed }
    {
        match &self.state {
            State::Ready(gathering) => gathering.may_ask_feed(),
            State::Gathering(_) | State::Sending { .. } | State::Lingering { .. } => false,
        }
    }

    /// Reads or writes as far as its socket is ready. Where it is over then, which ends it, what it took and what of
    /// its answer wasn't sent to it are its response still.
    pub fn step(self) -> (Connection<S>, Step)
        ensures same { IsTrue S.is_known → (result.1 ≡ Step.Over → ⊥) → result.0.who ≡ self.who }
        ensures client { result.0.who.client ≡ self.who.client }
        ensures response { IsTrue S.is_known → result.0.who.response ≡ self.who.response }
        ensures end { result.0.end ≡ self.end }
    {
        let Connection {
            peer,
            state,
            is_going,
        } = self;
        let (peer, state, step) = go_on(peer, state);
        let connection = Connection {
            peer,
            state,
            is_going,
        };
        (connection, step)
    }

    /// The connection handed out with its request, which asks for what all asks that its client sends; the connection
    /// as it was where its request is still to come.
    pub fn into_exchange(self) -> Result<Exchange<S>, Connection<S>>
        ensures whole { IfOk result (λ exchange. IsRequest S.is_known S.coming exchange) }
        ensures asks { IsTrue S.is_known → IfOk result (λ exchange.
            AsksAs (unread exchange.request) (coming_from S.coming exchange).input) }
        ensures handed { IfOk result (λ exchange. self.who ≡ handed_as S.input S.coming S.taken exchange) }
        ensures end { IfOk result (λ exchange. exchange.peer.end ≡ self.end) }
        ensures kept { IfErr result (λ connection. connection ≡ self) }
    {
        let Connection {
            peer,
            state,
            is_going,
        } = self;
        match state {
            State::Ready(gathering) => Ok(Exchange {
                peer,
                request: RequestReader::new(gathering.bytes, gathering.is_ended),
            }),
            state => Err(Connection {
                peer,
                state,
                is_going,
            }),
        }
    }

    /// Tells the client that nothing more is sent, once its answer is, and reads what it still sends. A connection that
    /// is closed while bytes of it are unread is reset, and with that the client may lose its answer (RFC 9112, section
    /// 9.6).
    pub fn linger(&mut self)
        ensures answered { self.new.who.ahead ≡ [] }
        ensures kept { self.old.who.ahead ≡ [] → self.new.who ≡ self.old.who }
        ensures end { self.new.end ≡ self.old.end }
    {
        if !is_sent(&self.state) {
            return;
        }
        self.peer.socket.shut_writes();
        self.state = State::Lingering {
            pieces: MOST_PIECES,
        };
    }

    /// Has the system tell when the socket is ready for what the connection waits for.
    pub fn watch(&mut self, registry: &S::Registry, key: usize) -> io::Result<()>
        ensures { self.new ≡ self.old }
    {
        self.peer.watch(registry, key, awaited(&self.state))
    }
}
