//! A network in memory, whose clients send and take their bytes in pieces: for tests of every interleaving, and for
//! what contracts say where all is known that comes.

ghost use Rattle.std.specs.Prelude.{◌≡◌, ◌<◌, [], IfOk};

use bike_fixed::Moment;
use bike_http_connection::{Socket, Wants};
use bike_http_connections::{ACCEPTS_AGAIN, AcceptOutcome, Network};
use std::collections::VecDeque;
use std::io;
use std::io::ErrorKind;
use std::time::Duration;

/// A step of a client at which nothing of it comes, or nothing is taken.
pub const PAUSE: u8 = 0;

/// A step at which its connection fails.
pub const FAILURE: u8 = 255;

/// A client: how many turns it waits before it connects, at which moment it is accepted, all that it sends, by which
/// steps it does, and by which it takes its answer into `taken`, which is emptied as it is accepted. A step is a pause,
/// a failure or a number of bytes at most. Behind the last step all the rest comes or is taken at once, or nothing more
/// where it is silent.
#[derive(Drop)]
pub struct Client<'a> {
    pub wait: u64,
    pub moment: Moment,
    pub input: &'a [u8],
    pub sends: &'a [u8],
    pub takes: &'a [u8],
    pub is_silent: bool,
    pub taken: &'a mut Vec<u8>,
}

/// How many bytes the next step has; none where it is a pause.
fn next_step(steps: &mut &[u8], is_silent: bool) -> io::Result<usize>
    ensures { IfOk result (λ count. 0 < count) }
{
    let Some((step, rest)) = steps.split_first() else {
        if is_silent {
            return Err(ErrorKind::WouldBlock.into());
        }
        return Ok(usize::MAX);
    };
    let count = usize::from(*step);
    *steps = rest;
    if count == usize::from(PAUSE) {
        return Err(ErrorKind::WouldBlock.into());
    }
    if count == usize::from(FAILURE) {
        return Err(ErrorKind::ConnectionReset.into());
    }
    Ok(count)
}

/// The socket of a client.
#[derive(Drop)]
pub struct SimulatedSocket<'a> {
    client: Client<'a>,
    /// All that the client sends.
    input: &'a [u8],
}

impl<'a> SimulatedSocket<'a> {
    /// The socket of a client that is accepted: nothing was read of it or sent to it.
    fn of(client: Client<'a>) -> SimulatedSocket<'a>
        ensures input { result.input.now ≡ client.entry.input.now }
        ensures coming { result.client.input.now ≡ client.entry.input.now }
        ensures taken { result.client.taken.now.items ≡ [] }
    {
        client.taken.clear();
        let input = client.input;
        SimulatedSocket { client, input }
    }
}

impl<'a> Socket for SimulatedSocket<'a> {
    ghost use Rattle.std.specs.Prelude.{Some, true, refl};

    type Registry = ();

    ghost is_known = { true };

    ghost remaining = { λ socket. Some socket.client.input.now };

    ghost contents = { λ socket. Some socket.client.taken.now.items };

    ghost input = { λ socket. socket.input.now };

    ghost coming = { λ socket. socket.client.input.now };

    ghost taken = { λ socket. socket.client.taken.now.items };

    fn read(&mut self, buf: &mut [u8]) -> io::Result<usize> {
        let is_silent = self.client.is_silent;
        let count = next_step(&mut self.client.sends, is_silent)?;
        let count = count.min(buf.len()).min(self.client.input.len());
        let (came, rest) = self.client.input.split_at(count);
        buf[..count].copy_from_slice(came);
        self.client.input = rest;
        Ok(count)
    }

    fn write(&mut self, buf: &[u8]) -> io::Result<usize> {
        let is_silent = self.client.is_silent;
        let count = next_step(&mut self.client.takes, is_silent)?;
        let count = count.min(buf.len());
        self.client.taken.extend_from_slice(&buf[..count])?;
        Ok(count)
    }

    fn watch(
        &mut self,
        _registry: &(),
        _key: usize,
        _wants: Wants,
        _is_first: bool,
    ) -> io::Result<()> {
        Ok(())
    }

    fn shut_writes(&mut self) {}

    ghost told = { λ _ _. refl };

    ghost told_taken = { λ _ _. refl };
}

/// How many milliseconds a turn takes: a connection has a thousand turns.
const TURN: u64 = 10;

/// A network of clients, who are accepted in their order. In each turn every socket may be ready.
#[derive(Drop)]
pub struct SimulatedNetwork<'a> {
    clients: VecDeque<Client<'a>>,
    turn: u64,
    /// The key of the next socket that is told as ready.
    key: usize,
    /// How many keys there are.
    keys: usize,
    /// How many times accepting fails still.
    failures: u64,
}

impl<'a> SimulatedNetwork<'a> {
    /// These clients, none of which is accepted yet.
    pub fn new(clients: VecDeque<Client<'a>>) -> SimulatedNetwork<'a> {
        let keys = clients.len();
        SimulatedNetwork {
            clients,
            turn: 0,
            key: keys,
            keys,
            failures: 0,
        }
    }

    /// The same, where accepting fails so many times first.
    pub fn failing(self, failures: u64) -> SimulatedNetwork<'a> {
        let mut network = self;
        network.failures = failures;
        network
    }

    /// Whether accepting fails this time.
    fn fails(&mut self) -> bool
        ensures { self.new ≡ record self.old { failures = self.new.failures } }
    {
        if self.failures == 0 {
            return false;
        }
        self.failures -= 1;
        true
    }
}

impl<'a> Network for SimulatedNetwork<'a> {
    ghost use Rattle.std.specs.Prelude.{map};
    ghost use Rattle.bike_http_sockets.specs.Simulated.{coming_of};

    type Socket = SimulatedSocket<'a>;

    ghost ahead = { λ network. map coming_of network.clients.items };

    fn registry(&self) -> &() {
        &()
    }

    fn is_done(&self) -> bool {
        self.clients.is_empty()
    }

    fn may_accept(&self) -> bool {
        match self.clients.front() {
            Some(client) => client.wait <= self.turn,
            None => false,
        }
    }

    fn accept(&mut self) -> io::Result<AcceptOutcome<SimulatedSocket<'a>>> {
        if self.fails() {
            return Ok(AcceptOutcome::Failed);
        }
        match self.clients.pop_front() {
            Some(client) => {
                let moment = client.moment;
                Ok(AcceptOutcome::One(SimulatedSocket::of(client), moment))
            }
            None => Ok(AcceptOutcome::Nobody),
        }
    }

    fn accept_alone(
        &mut self,
        _piece: &mut [u8],
    ) -> io::Result<Option<(SimulatedSocket<'a>, Moment, usize)>> {
        if self.fails() {
            self.turn = self.turn.saturating_add(ACCEPTS_AGAIN / TURN);
            return Ok(None);
        }
        match self.clients.pop_front() {
            Some(client) => {
                self.turn = self.turn.max(client.wait);
                let moment = client.moment;
                Ok(Some((SimulatedSocket::of(client), moment, 0)))
            }
            None => Ok(None),
        }
    }

    fn wait(&mut self, _patience: Option<Duration>) -> io::Result<()> {
        self.turn = self.turn.saturating_add(1);
        self.key = 0;
        Ok(())
    }

    fn next_ready(&mut self) -> Option<usize> {
        if self.key >= self.keys {
            return None;
        }
        let key = self.key;
        self.key += 1;
        Some(key)
    }

    fn now(&mut self) -> io::Result<Duration> {
        Ok(Duration::from_millis(self.turn.saturating_mul(TURN)))
    }

    fn close(&mut self) {
        self.clients.clear();
    }
}
