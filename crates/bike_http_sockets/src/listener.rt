//! The listener on a port.

ghost use Rattle.std.specs.Prelude.{◌≡◌, ◌<◌, ◌-◌, ◌↔◌, IsTrue, IfOk, OnErr};
ghost use Rattle.std.specs.IoError.{raw_os_error};
ghost use Rattle.bike_http_sockets.specs.Limits.{IsGone};

use crate::loopback::LISTENER;
use mio::net::{TcpListener, TcpStream};
use mio::{Interest, Registry};
use std::io::{Error, ErrorKind};
use std::net::{Ipv4Addr, SocketAddr};
use std::os::fd::AsFd;
use std::{io, net};

/// The number of the error that a socket is of another kind than a call is made for (EOPNOTSUPP).
const NOT_SUPPORTED: i32 = 95;

/// Whether the listener is gone, so that nobody can be accepted any more. Any other failure of accepting may be over a
/// moment later.
pub(crate) fn is_gone(error: &Error) -> bool
    ensures { IsTrue result ↔ IsGone (raw_os_error error.now) }
{
    matches!(
        error.raw_os_error(),
        Some(libc::EBADF | libc::EINVAL | libc::ENOTSOCK | NOT_SUPPORTED)
    )
}

/// A listener on a port of the loopback address.
#[derive(Drop)]
pub(crate) struct Listener {
    polled: TcpListener,
    /// The same socket, which says whether `accept` waits.
    waiting: net::TcpListener,
    waits: bool,
    /// Whether somebody may wait to be accepted.
    may_accept: bool,
    /// How many connections are still to be accepted.
    left: u64,
}

impl Listener {
    /// Listens on this port of 127.0.0.1, where 0 is a free one.
    pub(crate) fn bind(
        rt: &HostRuntime,
        registry: &Registry,
        port: u16,
        count: u64,
    ) -> io::Result<Listener> {
        let mut polled = TcpListener::bind(rt, SocketAddr::from((Ipv4Addr::LOCALHOST, port)))?;
        registry.register(&mut polled, LISTENER, Interest::READABLE)?;
        let waiting = net::TcpListener::from(polled.as_fd().try_clone_to_owned()?);
        Ok(Listener {
            polled,
            waiting,
            waits: false,
            may_accept: true,
            left: count,
        })
    }

    /// The address that is listened on.
    pub(crate) fn local_addr(&self) -> io::Result<SocketAddr> {
        self.polled.local_addr()
    }

    /// Whether all are accepted that were to be.
    pub(crate) fn is_done(&self) -> bool
        ensures { IsTrue result → self.now.left ≡ 0 }
    {
        self.left == 0
    }

    /// Accepts nobody any more.
    pub(crate) fn close(&mut self)
        ensures { self.new ≡ record self.old { left = 0 } }
    {
        self.left = 0;
    }

    /// Somebody waits to be accepted.
    pub(crate) fn wake(&mut self)
        ensures { self.new.left ≡ self.old.left }
    {
        self.may_accept = true;
    }

    /// Whether one is to be accepted now.
    pub(crate) fn may_accept(&self) -> bool
        ensures { IsTrue result → 0 < self.now.left }
    {
        self.may_accept && self.left > 0
    }

    /// Accepts one without waiting. Then one less is still to be accepted.
    pub(crate) fn accept(&mut self) -> io::Result<TcpStream>
        ensures counts { IfOk result (λ stream. self.new.left ≡ self.old.left - 1) }
        ensures kept { OnErr result (self.new.left ≡ self.old.left) }
    {
        match self.polled.accept() {
            Ok((stream, _)) => {
                self.left = self.left.saturating_sub(1);
                Ok(stream)
            }
            Err(error) => {
                if error.kind() == ErrorKind::WouldBlock {
                    self.may_accept = false;
                }
                Err(error)
            }
        }
    }

    /// Says whether `accept` waits.
    fn set_waits(&mut self, waits: bool) -> io::Result<()>
        ensures { self.new.left ≡ self.old.left }
    {
        if self.waits != waits {
            self.waiting.set_nonblocking(!waits)?;
            self.waits = waits;
        }
        Ok(())
    }

    /// Waits for one, where none is open. It takes fewer calls of the system than to be told of it.
    pub(crate) fn accept_alone(&mut self) -> io::Result<net::TcpStream>
        ensures counts { IfOk result (λ stream. self.new.left ≡ self.old.left - 1) }
        ensures kept { OnErr result (self.new.left ≡ self.old.left) }
    {
        self.set_waits(true)?;
        let (stream, _) = self.waiting.accept()?;
        self.left = self.left.saturating_sub(1);
        Ok(stream)
    }

    /// Has `accept` not wait, since one is open. Others may have come meanwhile.
    pub(crate) fn stop_waiting(&mut self) -> io::Result<()>
        ensures { self.new.left ≡ self.old.left }
    {
        if self.waits {
            self.may_accept = true;
        }
        self.set_waits(false)
    }
}
