//! One connection of a client, which is read and written as far as its socket is ready.
//!
//! What comes is gathered until a request is whole. Then the connection is handed out as an `Exchange`: its request is
//! read, and its client, the `Peer`, is taken back with its `ResponseBuffer`, which goes out as the client takes it.
//! Where it is known what comes, the contracts say what is read.
#![tactic(auto)]

mod answer;
mod connection;
mod exchange;
mod gathering;
mod limits;
mod peer;
mod request;
mod socket;
mod stage;

pub use answer::{BLOCK, ResponseBuffer};
pub use connection::{Connection, Step};
pub use exchange::Exchange;
pub use gathering::Gathering;
pub use limits::PIECE;
pub use peer::Peer;
pub use request::RequestReader;
pub use socket::{Socket, Wants};
