//! How much is known of a request by the bytes that came.

ghost use Rattle.std.specs.Prelude.{◌≡◌, false};
ghost use Rattle.bike_http_connection.specs.Settled.{wanted_of};
ghost use Rattle.bike_http_connection.specs.Awaiting.{Awaits, ShowsFeeds};

use bike_http_head::{BodyLength, HEAD_LENGTH, HeadReading, may_ask_feed, read_head};

/// How much is known of a request.
#[derive(Clone, Copy)]
pub(crate) enum Stage {
    /// Its head isn't whole. A line end is waited for, as a head ends with one; or more bytes than so many, by which it
    /// is found out what is no head.
    Head(usize),
    /// Its head is whole. No more is wanted once there are so many bytes in all.
    Body { end: usize, may_ask_feed: bool },
    /// No head can come.
    Unreadable,
}

/// How many bytes of a body are wanted: none where what its head tells is refused.
fn wanted_of(body: BodyLength) -> usize
    ensures { result ≡ wanted_of body }
{
    match body {
        BodyLength::Malformed | BodyLength::TooLong => 0,
        BodyLength::Of(size) => size,
    }
}

/// How much is known of a request that begins with these bytes.
pub(crate) fn stage_of(bytes: &[u8]) -> Stage
    ensures awaits { Awaits result false bytes.now }
    ensures feeds { ShowsFeeds result bytes.now }
{
    match read_head(bytes) {
        HeadReading::Incomplete => {
            let twice = bytes.len().saturating_mul(2);
            Stage::Head(twice.min(HEAD_LENGTH - 1))
        }
        HeadReading::Unreadable => Stage::Unreadable,
        HeadReading::Whole(head) => Stage::Body {
            end: head.length + wanted_of(head.body),
            may_ask_feed: may_ask_feed(head.target.of(bytes)),
        },
    }
}
