//! The loopback address as a network.

ghost use Rattle.std.specs.Prelude.{◌≤◌, length, IfOk};

use crate::clock::clock_moment;
use crate::listener::{Listener, is_gone};
use bike_fixed::Moment;
use bike_http_connection::{Socket, Wants};
use bike_http_connections::{ACCEPTS_AGAIN, AcceptOutcome, Network, TURN};
use mio::net::TcpStream;
use mio::{Events, Interest, Poll, Registry, Token};
use std::collections::VecDeque;
use std::io::{ErrorKind, Read, Write};
use std::net::{Shutdown, SocketAddr};
use std::time::{Duration, Instant};
use std::{io, net};

/// The token of the listener, which no connection has.
pub(crate) const LISTENER: Token = Token(usize::MAX);

/// How many milliseconds the request of a connection that comes alone is waited for, before others are accepted.
const PATIENCE_ALONE: u64 = 1;

/// The socket of a client.
#[derive(Drop)]
pub struct LoopbackSocket {
    stream: TcpStream,
}

impl Socket for LoopbackSocket {
    ghost use Rattle.std.specs.Prelude.{◌≡◌, [], None, true, false};

    type Registry = Registry;

    ghost is_known = { false };

    ghost remaining = { λ _. None };

    ghost contents = { λ _. None };

    ghost input = { λ _. [] };

    ghost coming = { λ _. [] };

    ghost taken = { λ _. [] };

    fn read(&mut self, buf: &mut [u8]) -> io::Result<usize> {
        self.stream.read(buf)
    }

    fn write(&mut self, buf: &[u8]) -> io::Result<usize> {
        self.stream.write(buf)
    }

    fn watch(
        &mut self,
        registry: &Registry,
        key: usize,
        wants: Wants,
        is_first: bool,
    ) -> io::Result<()> {
        let interest = match wants {
            Wants::Reads => Interest::READABLE,
            Wants::Writes => Interest::WRITABLE,
        };
        if is_first {
            registry.register(&mut self.stream, Token(key), interest)
        } else {
            registry.reregister(&mut self.stream, Token(key), interest)
        }
    }

    fn shut_writes(&mut self) {
        let _ = self.stream.shutdown(Shutdown::Write);
    }

    ghost told = { λ _ known. absurd (let none : false ≡ true = known in cc) };

    ghost told_taken = { λ _ known. absurd (let none : false ≡ true = known in cc) };
}

/// A port of the loopback address, its clock, and what tells which sockets are ready.
#[derive(Drop)]
pub struct Loopback<'a> {
    rt: &'a HostRuntime,
    poll: Poll,
    events: Events,
    listener: Listener,
    /// The keys of those that are ready.
    keys: VecDeque<usize>,
    start: Instant,
}

/// Whether a read that was to wait for a moment ended because nothing came in it.
fn is_nothing_yet(error: &io::Error) -> bool {
    matches!(error.kind(), ErrorKind::WouldBlock | ErrorKind::Interrupted)
}

/// Reads what a connection that came alone sends within a moment; how many bytes.
fn read_alone(stream: &net::TcpStream, piece: &mut [u8]) -> io::Result<usize>
    ensures { IfOk result (λ count. count ≤ length piece.new) }
{
    stream.set_read_timeout(Some(Duration::from_millis(PATIENCE_ALONE)))?;
    let mut input = stream;
    match input.read(piece) {
        Ok(count) => Ok(count),
        Err(error) if is_nothing_yet(&error) => Ok(0),
        Err(error) => Err(error),
    }
}

impl<'a> Loopback<'a> {
    /// Listens on this port of 127.0.0.1, where 0 is a free one, for so many connections.
    pub fn bind(rt: &'a HostRuntime, port: u16, count: u64) -> io::Result<Loopback<'a>> {
        let poll = Poll::new(rt)?;
        let events = Events::with_capacity(rt.alloc(), TURN)?;
        let keys = VecDeque::with_capacity(rt.alloc(), TURN)?;
        let listener = Listener::bind(rt, poll.registry(), port, count)?;
        let start = Instant::now(rt)?;
        Ok(Loopback {
            rt,
            poll,
            events,
            listener,
            keys,
            start,
        })
    }

    /// The address that is listened on.
    pub fn local_addr(&self) -> io::Result<SocketAddr> {
        self.listener.local_addr()
    }

    /// Waits until accepting that failed may go well, whoever comes meanwhile.
    fn pause(&mut self) -> io::Result<()> {
        let end = self
            .now()?
            .saturating_add(Duration::from_millis(ACCEPTS_AGAIN));
        for _turn in 0..u64::MAX {
            let left = end.saturating_sub(self.now()?);
            if left.is_zero() {
                return Ok(());
            }
            self.wait(Some(left))?;
        }
        Ok(())
    }

    /// The clock's moment; an error is a clock that fails.
    fn moment(&self) -> io::Result<Moment> {
        match clock_moment(self.rt) {
            Some(moment) => Ok(moment),
            None => Err(ErrorKind::Other.into()),
        }
    }
}

impl<'a> Network for Loopback<'a> {
    ghost use Rattle.std.specs.Prelude.{[]};

    type Socket = LoopbackSocket;

    ghost ahead = { λ _. [] };

    fn registry(&self) -> &Registry {
        self.poll.registry()
    }

    fn is_done(&self) -> bool {
        self.listener.is_done()
    }

    fn may_accept(&self) -> bool {
        self.listener.may_accept()
    }

    fn accept(&mut self) -> io::Result<AcceptOutcome<LoopbackSocket>> {
        self.listener.stop_waiting()?;
        match self.listener.accept() {
            Ok(stream) => Ok(AcceptOutcome::One(LoopbackSocket { stream }, self.moment()?)),
            Err(error) if error.kind() == ErrorKind::WouldBlock => Ok(AcceptOutcome::Nobody),
            Err(error) if error.kind() == ErrorKind::ConnectionAborted => Ok(AcceptOutcome::Lost),
            Err(error) if is_gone(&error) => Err(error),
            Err(_) => Ok(AcceptOutcome::Failed),
        }
    }

    fn accept_alone(
        &mut self,
        piece: &mut [u8],
    ) -> io::Result<Option<(LoopbackSocket, Moment, usize)>> {
        let stream = match self.listener.accept_alone() {
            Ok(stream) => stream,
            Err(error) if error.kind() == ErrorKind::ConnectionAborted => return Ok(None),
            Err(error) if is_gone(&error) => return Err(error),
            Err(_) => {
                self.pause()?;
                return Ok(None);
            }
        };
        let Ok(count) = read_alone(&stream, piece) else {
            return Ok(None);
        };
        if stream.set_nonblocking(true).is_err() {
            return Ok(None);
        }
        let stream = TcpStream::from_std(stream);
        Ok(Some((LoopbackSocket { stream }, self.moment()?, count)))
    }

    fn wait(&mut self, patience: Option<Duration>) -> io::Result<()> {
        self.listener.stop_waiting()?;
        self.poll.poll(&mut self.events, patience)?;
        for event in self.events.iter() {
            if event.token() == LISTENER {
                self.listener.wake();
            } else {
                self.keys.push_back(event.token().0)?;
            }
        }
        Ok(())
    }

    fn next_ready(&mut self) -> Option<usize> {
        self.keys.pop_front()
    }

    fn now(&mut self) -> io::Result<Duration> {
        let now = Instant::now(self.rt)?;
        Ok(
            now.checked_duration_since(self.start)
                .unwrap_or(Duration::ZERO),
        )
    }

    fn close(&mut self) {
        self.listener.close();
    }
}
