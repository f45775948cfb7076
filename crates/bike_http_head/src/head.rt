//! The head of a request.

ghost use Rattle.httparse.specs.Spans.{IsRequestAt, IsRequestWithin};
ghost use Rattle.httparse.specs.Grammar.{RequestHead};
ghost use Rattle.bike_http_head.specs.Head.{IsRead, IsTold};

use crate::length::{BodyLength, body_length};
use httparse::Status;
use httparse::spans::{EMPTY_HEADER_SPAN, HeaderSpan, RequestSpans, Span, parse_request};

/// The greatest length of a head in bytes: empty lines in front and the last line end count too.
pub const HEAD_LENGTH: usize = 8192;

/// How many fields a head has at most.
pub const MOST_FIELDS: usize = 32;

/// What the head of a request says. It borrows nothing, so it is kept while the body comes.
#[derive(Clone, Copy)]
pub struct Head {
    /// Where the method stands.
    pub method: Span,
    /// Where the request target stands, which is text.
    pub target: Span,
    /// How many bytes the head has; the body comes next.
    pub length: usize,
    /// How long the fields say that the body is.
    pub body: BodyLength,
}

/// What the first bytes of an input hold.
#[derive(Clone, Copy)]
pub enum HeadReading {
    /// The front of a head.
    Incomplete,
    /// No head, whatever bytes follow.
    Unreadable,
    /// A whole head.
    Whole(Head),
}

/// What the spans of a head say.
fn head_of(bytes: &[u8], fields: &[HeaderSpan], spans: RequestSpans) -> Head
    requires { IsRequestWithin bytes.now fields.now spans }
    ensures { (head : RequestHead) → IsRequestAt bytes.now fields.now spans head → IsTold bytes.now head result }
{
    Head {
        method: spans.method,
        target: spans.path,
        length: spans.len,
        body: body_length(bytes, &fields[..spans.headers]),
    }
}

/// Reads the head at the front of the bytes. It is unreadable where no head of at most 8,192 bytes and 32 fields
/// can stand there (RFC 9112, sections 2 to 5, as `httparse` reads it), and incomplete where one may still come.
pub fn read_head(bytes: &[u8]) -> HeadReading
    ensures { IsRead bytes.now result }
{
    let mut fields = [EMPTY_HEADER_SPAN; MOST_FIELDS];
    let front = &bytes[..bytes.len().min(HEAD_LENGTH)];
    match parse_request(front, &mut fields) {
        Ok(Status::Complete(spans)) => HeadReading::Whole(head_of(front, &fields, spans)),
        Ok(Status::Partial) => {
            if bytes.len() < HEAD_LENGTH {
                HeadReading::Incomplete
            } else {
                HeadReading::Unreadable
            }
        }
        Err(_) => HeadReading::Unreadable,
    }
}
