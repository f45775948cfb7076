//! The JSON bodies of answers.

ghost use Rattle.std.specs.Prelude.{◌≡◌, ◌<◌, ◌++◌, IsTrue, length};
ghost use Rattle.bike_json.specs.State.{WroteNext, IsAt, takes_value, after_value};
ghost use Rattle.bike_json.specs.Tree.{text_of};
ghost use Rattle.bike_http_response.specs.Bodies.{error_tree, refused_tree, rejected_tree, replied_tree, body_of};

use crate::answer::Answer;
use crate::members::{Scalar, signed, whole, write_object};
use crate::requests::write_requests;
use crate::rows::{write_bike, write_order, write_rental, write_rider};
use bike_commands::{Refusal, Reply};
use bike_http_head::Rejection;
use bike_json::{JsonState, Output, member};

fn write_error<W: Output>(json: &mut JsonState, out: &mut W, name: &str)
    requires value { IsTrue (takes_value json.old.top) }
    requires room { length json.old.round < 16 }
    ensures wrote { WroteNext json.old json.new (W.contents out.old) (W.contents out.new)
        (text_of (error_tree name.now)) }
    ensures place { IsAt json.new (after_value json.old.top) json.old.round }
{
    write_object(
        json,
        out,
        &[(member!("result"), Scalar::Text("error"))],
        &[(member!("name"), Scalar::Text(name))],
    );
}

fn write_refused<W: Output>(json: &mut JsonState, out: &mut W, refusal: Refusal)
    requires value { IsTrue (takes_value json.old.top) }
    requires room { length json.old.round < 16 }
    ensures wrote { WroteNext json.old json.new (W.contents out.old) (W.contents out.new)
        (text_of (refused_tree refusal)) }
    ensures place { IsAt json.new (after_value json.old.top) json.old.round }
{
    write_object(
        json,
        out,
        &[(member!("result"), Scalar::Text("refused"))],
        &[
            (
                member!("number"),
                Scalar::Whole(i64::from(refusal.number())),
            ),
            (member!("name"), Scalar::Text(refusal.name())),
        ],
    );
}

fn write_rejected<W: Output>(json: &mut JsonState, out: &mut W, rejection: Rejection)
    requires value { IsTrue (takes_value json.old.top) }
    requires room { length json.old.round < 16 }
    ensures wrote { WroteNext json.old json.new (W.contents out.old) (W.contents out.new)
        (text_of (rejected_tree rejection)) }
    ensures place { IsAt json.new (after_value json.old.top) json.old.round }
{
    match rejection {
        Rejection::BadRequest => write_error(json, out, "bad_request"),
        Rejection::BadField => write_refused(json, out, Refusal::BadField),
        Rejection::NotFound => write_error(json, out, "not_found"),
        Rejection::MethodNotAllowed(_) => write_error(json, out, "method_not_allowed"),
        Rejection::TooLarge => write_error(json, out, "too_large"),
    }
}

fn write_replied<W: Output>(json: &mut JsonState, out: &mut W, reply: &Reply)
    requires value { IsTrue (takes_value json.old.top) }
    requires room { length json.old.round < 16 }
    ensures wrote { WroteNext json.old json.new (W.contents out.old) (W.contents out.new)
        (text_of (replied_tree reply.now)) }
    ensures place { IsAt json.new (after_value json.old.top) json.old.round }
{
    let ok = [(member!("result"), Scalar::Text("ok"))];
    match reply {
        Reply::Done => write_object(json, out, &ok, &[]),
        Reply::Balance(balance) => {
            write_object(
                json,
                out,
                &ok,
                &[(member!("balance_cents"), signed(*balance))],
            )
        }
        Reply::Started { rental, bike } => write_object(
            json,
            out,
            &ok,
            &[
                (member!("rental"), whole(*rental)),
                (member!("bike"), whole(*bike)),
            ],
        ),
        Reply::Ended { fare, balance } => write_object(
            json,
            out,
            &ok,
            &[
                (member!("fare_cents"), signed(fare.hundredths())),
                (member!("balance_cents"), signed(*balance)),
            ],
        ),
        Reply::Ordered { order } => write_object(
            json,
            out,
            &ok,
            &[(member!("order"), whole(*order))],
        ),
        Reply::Refused(refusal) => write_refused(json, out, *refusal),
    }
}

/// Writes the body of an answer as the next value.
pub fn write_body<W: Output>(json: &mut JsonState, out: &mut W, answer: &Answer)
    requires value { IsTrue (takes_value json.old.top) }
    requires room { length json.old.round < 14 }
    ensures wrote { WroteNext json.old json.new (W.contents out.old) (W.contents out.new)
        (text_of (body_of answer.now)) }
    ensures place { IsAt json.new (after_value json.old.top) json.old.round }
{
    match answer {
        Answer::Rejected(rejection) => write_rejected(json, out, *rejection),
        Answer::Unavailable => write_error(json, out, "unavailable"),
        Answer::Replied(reply) => write_replied(json, out, reply),
        Answer::Rider(row) => write_rider(json, out, row),
        Answer::Bike(number, bike) => write_bike(json, out, *number, bike),
        Answer::Rental(number, rental) => write_rental(json, out, *number, rental),
        Answer::Order(number, order) => write_order(json, out, *number, order),
        Answer::Requests(page) => write_requests(json, out, page.requests()),
    }
}
