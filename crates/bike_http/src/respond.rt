//! Asking the desk, and sending the response.

ghost use Rattle.std.specs.Prelude.{◌≡◌, ◌≤◌, max, IsTrue};
ghost use Rattle.sqlite_trees.specs.View.{doubt};
ghost use Rattle.bike_operator.specs.Sound.{IsCall};
ghost use Rattle.bike_desk.specs.Desk.{desk_state, OfOperator, KeepsWhereGoing};
ghost use Rattle.bike_desk.specs.Queries.{Queries};
ghost use Rattle.bike_http.specs.Shown.{shown_of};
ghost use Rattle.bike_http.specs.Exchange.{answered, IsGood};
ghost use Rattle.bike_http_response.specs.Sent.{Sends};
ghost use Rattle.bike_http.specs.Telling.{Tells, TellsReply, RestsAfter, SendsText, Publishes, RespondsTo};
ghost use Rattle.bike_http.specs.Telling.{refusal_of};

use crate::rows::{bike_answer, order_answer, rental_answer, rider_answer};
use bike_commands::Request;
use bike_desk::{Desk, DeskFault};
use bike_feed_texts::Feed;
use bike_feeds::{FeedFault, write_feed};
use bike_fixed::Moment;
use bike_http_head::{Rejection, RowKey};
use bike_http_request::Action;
use bike_http_response::{Answer, Status, head_text, write_answer};
use bike_stream::{WriteFault, write_whole};
use sqlite::Alter;
use std::alloc::Global;
use std::io::Write;

/// Asks the desk to act.
fn act<S: Alter>(alloc: Global, desk: &mut Desk<S>, moment: Moment, request: &Request) -> Answer
    // What is told, and where the desk is then.
    ensures clean { doubt (desk_state S.Store desk.old).is_clean ≤ doubt (desk_state S.Store desk.new).is_clean }
    ensures told { OfOperator S.Store desk.old desk.new (λ s.
        TellsReply S.Store desk.new s moment request.now result) }
    ensures rests { OfOperator S.Store desk.old desk.new (λ s.
        RestsAfter S.Store desk.old desk.new s moment (Action.Apply request.now)) }
    // What was asked is a good request.
    ensures good { IsCall (moment, request.now) }
    // A stopped desk.
    ensures stays { IsTrue desk.old.is_stopped → desk.new ≡ desk.old }
    ensures refuses { IsTrue desk.old.is_stopped → result ≡ Answer.Unavailable }
{
    // What is booked is a good request at a moment of the program.
    moment.bounds();
    let _command = &request.command;
    match desk.apply(alloc, moment, request) {
        Ok(reply) => Answer::Replied(reply),
        Err(_) => Answer::Unavailable,
    }
}

/// Asks the desk for what is shown of a key.
fn find_row<S: Alter>(alloc: Global, desk: &mut Desk<S>, row: RowKey) -> Result<Answer, DeskFault>
    ensures { Queries S.Store desk.old desk.new result (λ s answer. answer ≡ shown_of s row) }
{
    match row {
        RowKey::Rider(rider) => Ok(rider_answer(rider, desk.rider(rider)?)),
        RowKey::Bike(bike) => Ok(bike_answer(bike, desk.bike(alloc, bike)?)),
        RowKey::Rental(rental) => Ok(rental_answer(rental, desk.rental(alloc, rental)?)),
        RowKey::Order(order) => Ok(order_answer(order, desk.order(alloc, order)?)),
        RowKey::History(after) => Ok(Answer::Requests(desk.requests_after(alloc, after)?)),
    }
}

/// Asks the desk to show what is of a key.
fn show<S: Alter>(alloc: Global, desk: &mut Desk<S>, row: RowKey) -> Answer
    ensures clean { doubt (desk_state S.Store desk.old).is_clean ≤ doubt (desk_state S.Store desk.new).is_clean }
    ensures told { OfOperator S.Store desk.old desk.new (λ s.
        Tells S.Store desk.new s (answered (shown_of s row)) s (answered result)) }
    ensures rests { KeepsWhereGoing S.Store desk.old desk.new }
    ensures stays { IsTrue desk.old.is_stopped → desk.new ≡ desk.old }
    ensures refuses { IsTrue desk.old.is_stopped → result ≡ Answer.Unavailable }
{
    match find_row(alloc, desk, row) {
        Ok(answer) => answer,
        Err(_) => Answer::Unavailable,
    }
}

/// Sends a feed's text behind its head.
fn send_text<W: Write>(writer: &mut W, text: &[u8]) -> Result<Status, WriteFault>
    ensures { SendsText (W.contents writer.old) (W.contents writer.new) text.now result }
{
    let head = head_text(Status::Ok, None, text.len() as u64);
    write_whole(writer, head.as_str().as_bytes())?;
    write_whole(writer, text)?;
    Ok(Status::Ok)
}

/// Publishes a feed for a moment: its text is held as it is made, and sent once its length is known. Where there is no
/// memory for it, nothing of it is sent.
fn publish_at<S: Alter, W: Write>(
    alloc: Global,
    desk: &mut Desk<S>,
    feed: Feed,
    moment: Moment,
    writer: &mut W,
) -> Result<Status, WriteFault>
    ensures clean { doubt (desk_state S.Store desk.old).is_clean ≤ doubt (desk_state S.Store desk.new).is_clean }
    ensures sent { OfOperator S.Store desk.old desk.new (λ s.
        Publishes S.Store desk.new s moment feed (W.contents writer.old) (W.contents writer.new) result) }
    ensures rests { KeepsWhereGoing S.Store desk.old desk.new }
    ensures stays { IsTrue desk.old.is_stopped → desk.new ≡ desk.old }
    ensures refuses { IsTrue desk.old.is_stopped
        → Sends (W.contents writer.old) (W.contents writer.new) Answer.Unavailable result }
{
    let mut text = Vec::new(alloc);
    match write_feed(alloc, desk, feed, moment, &mut text) {
        Ok(()) => send_text(writer, text.as_slice()),
        Err(FeedFault::SystemMissing) => write_answer(
            writer,
            &Answer::Rejected(Rejection::NotFound),
        ),
        Err(_) => write_answer(writer, &Answer::Unavailable),
    }
}

/// Publishes a feed for this moment, or for the operator's `now` where that is later: no feed is older than what it
/// tells.
fn publish<S: Alter, W: Write>(
    alloc: Global,
    desk: &mut Desk<S>,
    feed: Feed,
    moment: Moment,
    writer: &mut W,
) -> Result<Status, WriteFault>
    ensures clean { doubt (desk_state S.Store desk.old).is_clean ≤ doubt (desk_state S.Store desk.new).is_clean }
    ensures sent { OfOperator S.Store desk.old desk.new (λ s.
        Publishes S.Store desk.new s (max moment s.now) feed (W.contents writer.old) (W.contents writer.new) result) }
    ensures rests { KeepsWhereGoing S.Store desk.old desk.new }
    ensures stays { IsTrue desk.old.is_stopped → desk.new ≡ desk.old }
    ensures refuses { IsTrue desk.old.is_stopped
        → Sends (W.contents writer.old) (W.contents writer.new) Answer.Unavailable result }
{
    match desk.now() {
        Ok(now) => publish_at(alloc, desk, feed, moment.later(&now), writer),
        Err(_) => write_answer(writer, &Answer::Unavailable),
    }
}

/// Asks the desk, and sends the response.
pub(crate) fn respond<S: Alter, W: Write>(
    alloc: Global,
    desk: &mut Desk<S>,
    moment: Moment,
    asked: Action,
    writer: &mut W,
) -> Result<Status, WriteFault>
    // What is sent, and where the desk is then.
    ensures clean { doubt (desk_state S.Store desk.old).is_clean ≤ doubt (desk_state S.Store desk.new).is_clean }
    ensures sent { OfOperator S.Store desk.old desk.new (λ s.
        RespondsTo S.Store desk.new s moment asked (W.contents writer.old) (W.contents writer.new) result) }
    ensures rests { OfOperator S.Store desk.old desk.new (λ s. RestsAfter S.Store desk.old desk.new s moment asked) }
    // What was asked is a good request.
    ensures good { IsGood moment asked }
    // A stopped desk.
    ensures stays { IsTrue desk.old.is_stopped → desk.new ≡ desk.old }
    ensures refuses { IsTrue desk.old.is_stopped
        → Sends (W.contents writer.old) (W.contents writer.new) (refusal_of asked) result }
{
    match asked {
        Action::Reject(rejection) => write_answer(writer, &Answer::Rejected(rejection)),
        Action::Apply(request) => {
            let answer = act(alloc, desk, moment, &request);
            drop(request);
            write_answer(writer, &answer)
        }
        Action::Show(row) => {
            let answer = show(alloc, desk, row);
            write_answer(writer, &answer)
        }
        Action::Publish(feed) => publish(alloc, desk, feed, moment, writer),
    }
}
