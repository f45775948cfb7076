//! Requests that are there, to be read.

ghost use Rattle.std.specs.Prelude.{◌≡◌, ◌≤◌, ◌<◌, ◌++◌, [], length, take, drop, Some};
ghost use Rattle.bike_http_connection.specs.Asking.{unread};

use std::io;
use std::io::{ErrorKind, Read};

/// The bytes of a request that is there, and nothing of whose it is. A reader: it gives the bytes that were gathered,
/// and then the end of the input where that came. A read of anything else fails.
#[derive(Drop)]
pub struct RequestReader {
    bytes: Vec<u8>,
    /// How many of them were read.
    start: usize,
    is_ended: bool,
}

impl RequestReader {
    /// Of these bytes none is read yet.
    pub(crate) fn new(bytes: Vec<u8>, is_ended: bool) -> RequestReader
        ensures { result ≡ record { bytes = bytes; start = 0; is_ended = is_ended } }
    {
        RequestReader {
            bytes,
            start: 0,
            is_ended,
        }
    }

    /// Copies bytes that were gathered; how many. None are copied where all were read, or where there is no room for
    /// any.
    fn copy(&mut self, buf: &mut [u8]) -> usize
        ensures bound { result ≤ length buf.new }
        ensures copied { unread self.old ≡ take result buf.new ++ unread self.new }
        ensures all { result ≡ 0 → 0 < length buf.new → unread self.new ≡ [] }
    {
        let start = self.start.min(self.bytes.len());
        let left = &self.bytes[start..];
        let count = left.len().min(buf.len());
        buf[..count].copy_from_slice(&left[..count]);
        self.start = start + count;
        count
    }
}

impl Read for RequestReader {
    // The bytes that were gathered and aren't read yet.
    ghost remaining = { λ request. Some (unread request) };

    fn read(&mut self, buf: &mut [u8]) -> io::Result<usize> {
        let count = self.copy(buf);
        if count > 0 || buf.is_empty() || self.is_ended {
            return Ok(count);
        }
        Err(ErrorKind::WouldBlock.into())
    }
}
