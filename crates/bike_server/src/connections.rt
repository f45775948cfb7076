//! The connections of a network, as they are served.

ghost use Rattle.std.specs.Prelude.{◌≡◌, ◌*◌, ◌↔◌, IsTrue, IsFalse};
ghost use Rattle.std.specs.Duration.{as_nanos};
ghost use Rattle.bike_server.specs.Early.{MayBeEarly};

use crate::arrivals::{AcceptFault, Arrival, Arrivals};
use bike_http::{ServeFault, Served};
use bike_http_connection::{Peer, RequestReader, ResponseBuffer};
use bike_http_connections::{Connections, Network};
use std::time::Duration;

/// For how many seconds the answers under way are still sent where the desk is stopped.
const PATIENCE_STOPPED: u64 = 1;

/// For how many seconds they are where all were served that were to be: the last may have been accepted just now.
const PATIENCE_DONE: u64 = 10;

/// Whether the answer may have come before the whole request was read.
fn may_be_early(served: Result<Served, ServeFault>) -> bool
    ensures { IsTrue result ↔ MayBeEarly served }
{
    matches!(served, Ok(Served::Status(400 | 404 | 405 | 413)))
}

/// For how long the answers under way are still sent: for a second where serving ended early.
pub(crate) fn closing_time(is_done: bool) -> Duration
    ensures done { IsTrue is_done → as_nanos result ≡ PATIENCE_DONE * 1_000_000_000 }
    ensures stopped { IsFalse is_done → as_nanos result ≡ PATIENCE_STOPPED * 1_000_000_000 }
{
    let seconds = if is_done {
        PATIENCE_DONE
    } else {
        PATIENCE_STOPPED
    };
    Duration::from_secs(seconds)
}

/// Connections of a network: each is accepted at the clock's moment, and given up after ten seconds.
impl<N: Network> Arrivals for Connections<N> {
    ghost use Rattle.std.specs.Prelude.{true, Some, None, if◌then◌else◌};
    ghost use Rattle.bike_http_connection.specs.Connected.{peer_as};

    type Client = Peer<N::Socket>;

    type Reader = RequestReader;

    type Writer = ResponseBuffer;

    ghost may_fail = { true };

    ghost connected = { peer_as N.Socket.input N.Socket.taken };

    // What is let go isn't kept.
    ghost known = { λ connections. if N.Socket.is_known
        then Some (record { clients = connections; kept = None }) else None };

    fn accept(
        &mut self,
    ) -> Result<Option<Arrival<Peer<N::Socket>, RequestReader, ResponseBuffer>>, AcceptFault> {
        match self.next() {
            Ok(Some((exchange, answer))) => Ok(Some(Arrival {
                moment: exchange.peer.moment(),
                client: exchange.peer,
                reader: exchange.request,
                writer: answer,
            })),
            Ok(None) => Ok(None),
            Err(_) => Err(AcceptFault),
        }
    }

    fn finish(
        &mut self,
        client: Peer<N::Socket>,
        writer: ResponseBuffer,
        served: Result<Served, ServeFault>,
    ) {
        self.finish(client, writer, may_be_early(served));
    }
}
