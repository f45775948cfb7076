//! Where connections come from and where they go.

ghost use Rattle.std.specs.Prelude.{IfSome, IsSomeAnd};
ghost use Rattle.bike_server.specs.Visits.{IsOpen, LetsGo};
ghost use Rattle.bike_server.specs.Arrivals.{Accepts};

use bike_fixed::Moment;
use bike_http::{ServeFault, Served};
use std::io::{Read, Write};
use thiserror::Error;

/// A connection: when it was accepted, its client, what that sends, and what is sent to it. Whoever answers is lent the
/// last two alone.
#[derive(Drop)]
pub struct Arrival<C, R, W> {
    pub moment: Moment,
    pub client: C,
    pub reader: R,
    pub writer: W,
}

/// No more connections can be accepted.
#[derive(Clone, Copy, Debug, PartialEq, Eq, Error)]
#[error("accept failed")]
pub struct AcceptFault;

/// Where connections come from, one after the other, and where they go once they are answered.
pub trait Arrivals {
    ghost use Rattle.std.specs.Prelude.{Bool, Option};
    ghost use Rattle.bike_http_connection.specs.Connected.{Connected};
    ghost use Rattle.bike_server.specs.Visits.{Visits};

    /// A client, to whom an answer goes.
    type Client: Drop;

    /// What a client sends.
    type Reader: Read + Drop;

    /// What a client is sent.
    type Writer: Write + Drop;

    // Whether accepting may fail though it is known what comes.
    ghost may_fail: { Bool };

    // A client that was accepted, without its request: who it is, and what it took before.
    ghost connected: { Self.Client → Connected };

    // The clients who are there and those that were let go, where they are known.
    ghost known: { Self → Option Visits };

    /// The next connection; none where there are no more. Where it fails, none was accepted, and those that come still
    /// may be fewer.
    fn accept(
        &mut self,
    ) -> Result<Option<Arrival<Self::Client, Self::Reader, Self::Writer>>, AcceptFault>
        ensures { Accepts may_fail connected Self.Reader.remaining Self.Writer.contents
            (known self.old) (known self.new) result };

    /// Lets a client go that was accepted, with its answer, which it alone is sent, once; it is told how its exchange
    /// ended.
    fn finish(
        &mut self,
        client: Self::Client,
        writer: Self::Writer,
        served: Result<Served, ServeFault>,
    )
        requires { IsOpen (known self.old) }
        ensures { IfSome (known self.old) (λ visits. IfSome (Self.Writer.contents writer)
            (λ sent. IsSomeAnd (known self.new) (λ after.
            LetsGo visits (connected client) (record { served = served; sent = sent }) after))) };
}
