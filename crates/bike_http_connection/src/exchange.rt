//! Connections that are handed out.

use crate::peer::Peer;
use crate::request::RequestReader;

/// A connection whose request is there, handed out to be answered: the request, which is lent to whoever answers it,
/// and its client, which isn't, and which takes the answer.
#[derive(Drop)]
pub struct Exchange<S> {
    pub peer: Peer<S>,
    pub request: RequestReader,
}
