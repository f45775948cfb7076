//! What an exchange of HTTP/1.1 asks for, read from its bytes alone.
//!
//! A request is answered at once, asks the operator to act, or wants something shown. Which of these, and what,
//! is a function of the input's bytes: how they were cut into reads doesn't matter. Nothing here knows the
//! operator.
#![tactic(auto)]

mod action;
mod body;
mod incoming;
mod input;
mod laws;
mod members;

pub use action::{Action, ask};
pub use incoming::{ReceiveFault, receive};
pub use input::MOST_READS;
pub use laws::asked_once;
