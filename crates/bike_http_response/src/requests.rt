//! Accepted requests as JSON.

ghost use Rattle.std.specs.Prelude.{◌≡◌, ◌<◌, IsTrue, length, false, min, pos};
ghost use Rattle.bike_json.specs.Rows.{items};
ghost use Rattle.bike_json.specs.State.{Wrote, WroteNext, IsAt, takes_value, takes_array_end, after_value};
ghost use Rattle.bike_json.specs.Tree.{items_text, text_of};
ghost use Rattle.bike_http_response.specs.Bodies.{request_object, request_tree, requests_tree};

use crate::members::{Scalar, write_object};
use bike_http_head::GREATEST_REQUEST;
use bike_json::{JsonState, Level, Output, member};
use bike_operator::RequestInfo;

/// A request's number, as a value.
fn number_of(number: u64) -> Scalar<'static>
    ensures { result ≡ Scalar.Whole (pos (min number GREATEST_REQUEST)) }
{
    Scalar::Whole(number.min(GREATEST_REQUEST) as i64)
}

/// Writes a request whose moment has this text.
fn write_request_at<'a, W: Output>(
    json: &mut JsonState,
    out: &mut W,
    request: &'a RequestInfo,
    moment: &'a str,
)
    requires value { IsTrue (takes_value json.old.top) }
    requires room { length json.old.round < 16 }
    ensures wrote { WroteNext json.old json.new (W.contents out.old) (W.contents out.new)
        (text_of (request_object request.now moment.now)) }
    ensures place { IsAt json.new (after_value json.old.top) json.old.round }
{
    write_object(
        json,
        out,
        &[
            (member!("number"), number_of(request.number)),
            (member!("moment"), Scalar::Text(moment)),
            (member!("caller"), Scalar::Text(request.caller.as_str())),
            (member!("key"), Scalar::Text(request.key.as_str())),
            (member!("command"), Scalar::Text(request.command.as_str())),
            (member!("reply"), Scalar::Text(request.reply.as_str())),
        ],
        &[],
    );
}

fn write_request<W: Output>(json: &mut JsonState, out: &mut W, request: &RequestInfo)
    requires value { IsTrue (takes_value json.old.top) }
    requires room { length json.old.round < 16 }
    ensures wrote { WroteNext json.old json.new (W.contents out.old) (W.contents out.new)
        (text_of (request_tree request.now)) }
    ensures place { IsAt json.new (after_value json.old.top) json.old.round }
{
    let moment = request.moment.text();
    write_request_at(json, out, request, moment.as_str());
}

/// The requests as items.
fn write_items<W: Output>(json: &mut JsonState, out: &mut W, requests: &[RequestInfo])
    requires top { json.old.top ≡ Level.EmptyArray }
    requires room { length json.old.round < 16 }
    ensures wrote { Wrote json.old json.new (W.contents out.old) (W.contents out.new)
        (items_text false (items request_tree requests.now)) }
    ensures place { IsTrue (takes_array_end json.new.top) × (json.new.round ≡ json.old.round) }
{
    for request in requests {
        write_request(json, out, request);
    }
}

/// Writes accepted requests, as the one member of an object.
pub(crate) fn write_requests<W: Output>(json: &mut JsonState, out: &mut W, requests: &[RequestInfo])
    requires value { IsTrue (takes_value json.old.top) }
    requires room { length json.old.round < 14 }
    ensures wrote { WroteNext json.old json.new (W.contents out.old) (W.contents out.new)
        (text_of (requests_tree requests.now)) }
    ensures place { IsAt json.new (after_value json.old.top) json.old.round }
{
    let _ = json.begin_object(out);
    let _ = json.member(out, member!("requests"));
    let _ = json.begin_array(out);
    write_items(json, out, requests);
    let _ = json.end_array(out);
    let _ = json.end_object(out);
}
