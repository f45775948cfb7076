//! HTTP over sockets: a database is taken into service, and each connection on a port of the loopback address has one
//! request answered, in the order in which the requests are there.
//!
//! Serving itself knows no socket: it is generic over where connections come from, so that its contract says what each
//! of them is sent where it is known what comes.
#![tactic(auto)]

mod arrivals;
mod connections;
mod fault;
mod file;
mod memory;
mod server;

pub use arrivals::{AcceptFault, Arrival, Arrivals};
pub use fault::ServerFault;
pub use file::listen_on_file;
pub use memory::{PlayedConnections, PlayedRequest, PlayedResponse};
pub use server::{listen, serve_count};
