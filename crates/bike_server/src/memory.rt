//! Connections in memory: for tests, and for what the contract of serving says where everything is known.

ghost use Rattle.std.specs.Prelude.{◌≡◌, [], map, IfOk, IsSomeAnd, Some};
ghost use Rattle.bike_http_connections.specs.Ahead.{fresh};
ghost use Rattle.bike_server.specs.Played.{coming_of, leaving_of};

use crate::arrivals::{AcceptFault, Arrival, Arrivals};
use bike_fixed::Moment;
use bike_http::{ServeFault, Served};
use std::alloc::{AllocError, Global};
use std::marker::Model;

/// A connection that will be played: the moment of its acceptance, and all that its client sends.
#[derive(Clone, Copy, Debug)]
pub struct PlayedRequest<'a> {
    pub moment: Moment,
    pub input: &'a [u8],
}

/// A connection that was played: who its client was, how its exchange ended, and all that was sent to it.
#[derive(Debug, Drop)]
pub struct PlayedResponse<'a> {
    pub visit: PlayedRequest<'a>,
    pub served: Result<Served, ServeFault>,
    pub sent: Vec<u8>,
}

/// Connections that are played from a list and collected with what was sent to them. Reads never fail; a write fails
/// for want of memory alone.
#[derive(Drop)]
pub struct PlayedConnections<'a> {
    alloc: Global,
    visits: &'a [PlayedRequest<'a>],
    next: usize,
    gone: Vec<PlayedResponse<'a>>,
}

impl<'a> Model for PlayedConnections<'a> {
    ghost use Rattle.std.specs.Prelude.{◌≤◌, ◌-◌, ◌++◌, length, vec_len, vec_capacity, map, drop, Some};
    ghost use Rattle.bike_http_connections.specs.Ahead.{fresh};
    ghost use Rattle.bike_server.specs.Visits.{Visits};
    ghost use Rattle.bike_server.specs.Played.{coming_of, leaving_of, parted};

    ghost Value = { Visits };

    ghost view = { λ p. record {
      clients = map parted p.gone.items ++ map fresh (map coming_of (drop p.next p.visits.now));
      kept = Some (record { gone = map leaving_of p.gone.items; pending = p.next - vec_len p.gone });
    } };

    // There is room for each.
    ghost invariant = { λ p. (vec_len p.gone ≤ p.next) × (p.next ≤ length p.visits.now)
        × (length p.visits.now ≤ vec_capacity p.gone) };
}

impl<'a> PlayedConnections<'a> {
    /// None was accepted yet. Takes the memory for all that will be let go.
    pub fn new(
        alloc: Global,
        visits: &'a [PlayedRequest<'a>],
    ) -> Result<PlayedConnections<'a>, AllocError>
        ensures { IfOk result (λ played. played
            ≡ record {
              clients = map fresh (map coming_of visits.now);
              kept = Some (record { gone = []; pending = 0 });
            }) }
    {
        let gone = Vec::with_capacity(alloc, visits.len())?;
        Ok(PlayedConnections {
            alloc,
            visits,
            next: 0,
            gone,
        })
    }

    /// Those that were let go, in their order.
    pub fn partings(&self) -> &[PlayedResponse<'a>]
        ensures { IsSomeAnd self.now.kept (λ kept. map leaving_of result.now ≡ kept.gone) }
    {
        self.gone.as_slice()
    }
}

impl<'a> Arrivals for PlayedConnections<'a> {
    ghost use Rattle.std.specs.Prelude.{false};
    ghost use Rattle.bike_server.specs.Played.{client_of};

    type Client = PlayedRequest<'a>;

    type Reader = &'a [u8];

    type Writer = Vec<u8>;

    ghost may_fail = { false };

    ghost connected = { client_of };

    ghost known = { λ played. Some played };

    fn accept(
        &mut self,
    ) -> Result<Option<Arrival<PlayedRequest<'a>, &'a [u8], Vec<u8>>>, AcceptFault> {
        if self.next == self.visits.len() {
            return Ok(None);
        }
        let visit = &self.visits[self.next];
        self.next += 1;
        Ok(Some(Arrival {
            moment: visit.moment,
            client: PlayedRequest {
                moment: visit.moment,
                input: visit.input,
            },
            reader: visit.input,
            writer: Vec::new(self.alloc),
        }))
    }

    fn finish(
        &mut self,
        client: PlayedRequest<'a>,
        writer: Vec<u8>,
        served: Result<Served, ServeFault>,
    ) {
        self.gone.push_reserved(PlayedResponse {
            visit: PlayedRequest {
                moment: client.moment,
                input: client.input,
            },
            served,
            sent: writer,
        });
    }
}
