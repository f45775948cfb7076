//! Connections of clients, many at once and in one thread: each is read and written as far as its socket is ready, so
//! that no client is waited for while others could be served.
//!
//! A connection is handed out once its request is there, and taken back with its answer, which goes out as its client
//! takes it. Where connections come from is a `Network`; where it is known what comes, the contracts say what is handed
//! out.
#![tactic(auto)]

mod connections;
mod counted;
mod limits;
mod network;
mod open;
mod room;
mod times;
mod turns;

pub use connections::Connections;
pub use limits::{ACCEPTS_AGAIN, MOST_OPEN, TURN};
pub use network::{AcceptOutcome, Network};
