//! Requests.

use crate::command::Command;
use bike_fields::{Caller, RequestKey};
use std::marker::Model;

/// The greatest length of a request line in bytes, its LF not counted.
pub const LINE_LENGTH: usize = 4_096;

/// A command, by whom it is sent and under which key. A caller that sends the same command again under
/// the same key is answered as before. Its fields keep their bounds by their types, which whoever makes one shows.
#[derive(Drop)]
pub struct Request {
    /// Who sends it.
    pub caller: Caller,
    /// The caller's own name for it.
    pub key: RequestKey,
    /// What it asks for.
    pub command: Command,
}

impl Model for Request {
    ghost use Rattle.bike_commands.specs.RequestFields.{RequestFields, IsRequest};

    ghost Value = { RequestFields };

    ghost view = { λ a. record { caller = a.caller; key = a.key; command = a.command } };

    ghost invariant = { λ a. IsRequest (record { caller = a.caller; key = a.key; command = a.command }) };
}
