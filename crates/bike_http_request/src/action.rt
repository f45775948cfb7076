//! What a request asks for.

ghost use Rattle.std.specs.Prelude.{◌≡◌, IfOk, IfSome, OnErr, option_map};
ghost use Rattle.serde_json.specs.View.{view};
ghost use Rattle.serde_json.specs.Data.{Data};
ghost use Rattle.bike_http_request.specs.Asked.{object_of, application_of, request_of, is_method, posted, shown, got};
ghost use Rattle.bike_http_request.specs.Asked.{asked_at, asked_for, MayAct, ActsAt, IsToAct};
ghost use Rattle.bike_fields.specs.Caller.{HasIdent, caller_meant};
ghost use Rattle.bike_fields.specs.Reads.{Gives};
ghost use Rattle.bike_http_request.specs.Bodies.{caller_at, command_by};
ghost use Rattle.bike_http_request.specs.Members.{key_in};

use crate::body::read_command_by;
use crate::members::key_in;
use bike_commands::{Command, Request};
use bike_feed_texts::Feed;
use bike_fields::{Caller, CallerName, Ident, RequestKey};
use bike_fixed::{Within, read_whole};
use bike_http_head::{Allow, GREATEST_REQUEST, Rejection, Route, Routes, RowKey, path_of};
use serde_json::Value;
use std::alloc::{AllocError, Global};

/// What a request asks for.
#[derive(Drop)]
pub enum Action {
    /// It is answered at once, whatever the operator holds.
    Reject(Rejection),
    /// The operator is to act.
    Apply(Request),
    /// A row is to be shown, or a page of the history.
    Show(RowKey),
    /// A feed is to be shown.
    Publish(Feed),
}

fn is_method(method: &[u8], wanted: Allow) -> bool
    ensures { result ≡ is_method method.now wanted }
{
    match wanted {
        Allow::Get => method == b"GET".as_slice(),
        Allow::Post => method == b"POST".as_slice(),
    }
}

/// What GET shows of that key.
fn show(method: &[u8], named: Option<RowKey>) -> Action
    ensures { result ≡ shown method.now named }
{
    let Some(row) = named else {
        return Action::Reject(Rejection::NotFound);
    };
    if !is_method(method, Allow::Get) {
        return Action::Reject(Rejection::MethodNotAllowed(Allow::Get));
    }
    Action::Show(row)
}

/// A feed that GET shows.
fn publish(method: &[u8], feed: Feed) -> Action
    ensures { result ≡ got method.now (Action.Publish feed) }
{
    if !is_method(method, Allow::Get) {
        return Action::Reject(Rejection::MethodNotAllowed(Allow::Get));
    }
    Action::Publish(feed)
}

/// The JSON object that the bytes are; an error is a want of memory.
#[tactic(auto, using(crate::proofs::Objects::object_not))]
fn read_object(alloc: Global, bytes: &[u8]) -> Result<Option<Value>, AllocError>
    ensures { IfOk result (λ o. option_map (λ v. view v) o ≡ object_of bytes.now) }
{
    match Value::from_slice(alloc, bytes) {
        Ok(value) => {
            if !value.is_object() {
                return Ok(None);
            }
            Ok(Some(value))
        }
        Err(error) => {
            if error.is_memory() {
                Err(AllocError)
            } else {
                Ok(None)
            }
        }
    }
}

/// Who acts by a request of that route, as the path's part names it; none where it names nobody.
fn caller_at<'p>(route: Route, part: &'p str) -> Option<CallerName<'p>>
    ensures read { Gives caller_meant result (caller_at route part.now) }
    ensures good { IfSome result HasIdent }
{
    match route {
        Route::Start => Some(CallerName::Rider(Within::read(part)?)),
        Route::End | Route::MarkDock | Route::MarkStationBike => {
            Some(CallerName::Dock(Ident::checked(part)?))
        }
        Route::Load | Route::Unload | Route::MarkTruckBike => {
            Some(CallerName::Crew(Within::read(part)?))
        }
        Route::Office => Some(CallerName::Office),
        Route::Staff => Some(CallerName::Staff(Ident::checked(part)?)),
        _ => None,
    }
}

/// What a request to act asks for: the path and the method come first, then the body's object, its key and its command.
#[tactic(auto, using(crate::proofs::Keys::without_key), unfolding(crate::specs::Asked::request_of))]
fn act(
    alloc: Global,
    route: Route,
    method: &[u8],
    part: &str,
    body: &[u8],
) -> Result<Action, AllocError>
    ensures asked { IfOk result (λ asked.
        asked ≡ posted method.now (caller_at route part.now) (λ caller. caller) (command_by route) body.now) }
    ensures memory { OnErr result (MayAct method.now (caller_at route part.now)) }
{
    let Some(named) = caller_at(route, part) else {
        return Ok(Action::Reject(Rejection::NotFound));
    };
    if !is_method(method, Allow::Post) {
        return Ok(Action::Reject(Rejection::MethodNotAllowed(Allow::Post)));
    }
    let Some(object) = read_object(alloc, body)? else {
        return Ok(Action::Reject(Rejection::BadRequest));
    };
    let Some(key) = key_in(alloc, &object)? else {
        return Ok(Action::Reject(Rejection::BadField));
    };
    let caller = named.keep(alloc)?;
    let Some(command) = read_command_by(alloc, route, &caller, &object)? else {
        return Ok(Action::Reject(Rejection::BadField));
    };
    Ok(Action::Apply(Request {
        caller,
        key,
        command,
    }))
}

/// What a request asks for whose path takes that route, with that part in the place of its parameter.
fn ask_at(
    alloc: Global,
    route: Route,
    method: &[u8],
    part: &str,
    body: &[u8],
) -> Result<Action, AllocError>
    ensures asked { IfOk result (λ asked. asked ≡ asked_at route method.now part.now body.now) }
    ensures memory { OnErr result (ActsAt route method.now part.now) }
{
    match route {
        Route::Start
        | Route::End
        | Route::MarkDock
        | Route::MarkStationBike
        | Route::Load
        | Route::Unload
        | Route::MarkTruckBike
        | Route::Office
        | Route::Staff => act(alloc, route, method, part, body),
        Route::Rider => Ok(show(method, Within::read(part).map(RowKey::Rider))),
        Route::Bike => Ok(show(method, Within::read(part).map(RowKey::Bike))),
        Route::Rental => Ok(show(method, Within::read(part).map(RowKey::Rental))),
        Route::Order => Ok(show(method, Within::read(part).map(RowKey::Order))),
        Route::History => {
            let after = read_whole(part, 0, GREATEST_REQUEST);
            Ok(show(method, after.map(RowKey::History)))
        }
        Route::Publish(feed) => Ok(publish(method, feed)),
    }
}

/// What a request asks for, by its method, its target and its body. A path without a route, or whose part isn't the
/// number or the identifier that the route wants, is not found; then another method than the path's isn't allowed. A
/// method's letters have their case. A GET's body is ignored. A POST's body that is no JSON object (RFC 8259) of UTF-8,
/// nested at most 127 deep, is a bad request; a member that is missing, of another kind or out of its bounds is a bad
/// field. Other members are ignored, and of equal ones the last counts. An error is a want of memory, which a POST
/// alone asks for whose path and method are good.
#[tactic(auto, unfolding(crate::specs::Asked::asked_for))]
pub fn ask(
    alloc: Global,
    routes: &Routes,
    method: &[u8],
    target: &str,
    body: &[u8],
) -> Result<Action, AllocError>
    ensures asked { IfOk result (λ asked. asked ≡ asked_for method.now target.now body.now) }
    ensures memory { OnErr result (IsToAct method.now target.now) }
{
    match routes.find(path_of(target)) {
        Some(found) => ask_at(alloc, found.route, method, found.part, body),
        None => Ok(Action::Reject(Rejection::NotFound)),
    }
}
