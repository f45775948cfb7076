//! A connection with the blocks that are counted of it.

ghost use Rattle.std.specs.Prelude.{◌≡◌};
ghost use Rattle.bike_http_connections.specs.Kept.{kept_as, opened_of};

use bike_http_connection::{Connection, Socket};
use std::marker::Model;
use std::time::Duration;

/// A connection that is open, and how many blocks are counted as those of its answer.
#[derive(Drop)]
pub(crate) struct CountedConnection<S: Socket> {
    connection: Connection<S>,
    blocks: usize,
}

impl<S: Socket> Model for CountedConnection<S> {
    ghost use Rattle.bike_http_connections.specs.Kept.{Kept, kept_as};

    ghost Value = { Kept };

    ghost view = { λ e. kept_as e.connection e.blocks };
}

impl<S: Socket> CountedConnection<S> {
    /// A connection of which so many blocks are counted.
    pub(crate) fn new(connection: Connection<S>, blocks: usize) -> CountedConnection<S>
        ensures { result ≡ kept_as connection blocks }
    {
        CountedConnection { connection, blocks }
    }

    /// When the connection is given up.
    pub(crate) fn end(&self) -> Duration
        ensures { result ≡ self.now.end }
    {
        self.connection.end()
    }

    /// How many blocks are counted of it.
    pub(crate) fn counted(&self) -> usize
        ensures { result ≡ self.now.blocks }
    {
        self.blocks
    }

    /// The connection.
    pub(crate) fn into_connection(self) -> Connection<S>
        ensures { result ≡ opened_of self }
    {
        self.connection
    }
}
