//! Networks that connections come from: a port of the loopback address, and clients in memory, of whom all is known.
#![tactic(auto)]

mod clock;
mod descriptors;
mod listener;
mod loopback;
mod simulated;
#[cfg(test)]
mod tests;

pub use clock::clock_moment;
pub use descriptors::has_descriptors;
pub use loopback::{Loopback, LoopbackSocket};
pub use simulated::{Client, FAILURE, PAUSE, SimulatedNetwork, SimulatedSocket};
