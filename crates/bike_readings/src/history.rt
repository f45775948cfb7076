//! The rows of accepted requests.

ghost use Rattle.std.specs.Prelude.{◌≡◌, IfOk, IfErr, IfSome, MatchOption, None, option_map};
ghost use Rattle.std.specs.Bool.{then_some};
ghost use Rattle.std.specs.Str.{bytes_eq};
ghost use Rattle.sqlite_value.specs.Order.{column};
ghost use Rattle.bike_commands.specs.Commands.{text_of};
ghost use Rattle.bike_operator.specs.Sound.{is_refused};
ghost use Rattle.bike_schema.specs.declared.fault.StatementFault.TheVariants.{NoMemory};
ghost use Rattle.bike_readings.specs.ColumnReaders.{one_command_of, accepted_of, caller_in, key_in, command_in};
ghost use Rattle.bike_readings.specs.ColumnReaders.{reply_in};
ghost use Rattle.bike_readings.specs.Readings.{request_read};
ghost use Rattle.bike_readings.specs.Views.{request_of};

use crate::columns::{moment_in, request_count_in, text_in};
use crate::part::Part;
use bike_book::RequestCount;
use bike_book::columns::history;
use bike_commands::{Command, Reply};
use bike_fields::{Caller, RequestKey};
use bike_fixed::Moment;
use bike_requests::{command_text, read_command};
use bike_schema::StatementFault;
use std::alloc::{AllocError, Global};

/// A row of `history`.
#[derive(Drop)]
pub struct StoredRequest {
    pub number: RequestCount,
    /// When it was accepted.
    pub moment: Moment,
    pub caller: Caller,
    pub key: RequestKey,
    pub command: Command,
    pub reply: Reply,
}

/// Whether the text is the command's own, where there is a command; an error is a want of memory.
fn is_own_text(alloc: Global, command: &Option<Command>, text: &str) -> Result<bool, AllocError>
    ensures { IfOk result (λ is. IfSome command.now (λ c. is ≡ bytes_eq text.now (text_of c))) }
{
    match command {
        Some(command) => {
            let written = command_text(alloc, command)?;
            Ok(text == written.as_str())
        }
        None => Ok(false),
    }
}

/// The command, where it is kept.
fn command_where(command: Option<Command>, is_kept: bool) -> Option<Command>
    ensures { MatchOption command (result ≡ None) (λ c. result ≡ then_some is_kept c) }
{
    command.filter(move |_| is_kept)
}

/// The command whose one text this is; an error is a want of memory.
fn one_command_of(alloc: Global, text: &str) -> Result<Option<Command>, AllocError>
    ensures { IfOk result (λ o. o ≡ one_command_of text.now) }
{
    let command = read_command(alloc, text)?;
    let is_own = is_own_text(alloc, &command, text);
    is_own.map(move |is_own| command_where(command, is_own))
}

/// Whether the reply is a refusal.
fn is_refused(reply: &Reply) -> bool
    ensures { result ≡ is_refused reply.now }
{
    matches!(reply, Reply::Refused(_))
}

/// The reply that the text spells, where it is no refusal.
#[tactic(auto, using(crate::proofs::RequestTexts::no_reply, crate::proofs::RequestTexts::this_reply))]
fn accepted_of(text: &str) -> Option<Reply>
    ensures { result ≡ accepted_of text.now }
{
    match Reply::read(text) {
        Some(reply) => {
            let is_refused = is_refused(&reply);
            if is_refused {
                return None;
            }
            Some(reply)
        }
        None => None,
    }
}

/// The caller; an error is a want of memory.
fn caller_in(alloc: Global, part: &Part<'_>) -> Result<Option<Caller>, AllocError>
    ensures { IfOk result (λ o. o ≡ caller_in (column part.now 2)) }
{
    match text_in(part, history::CALLER) {
        Some(text) => Caller::read(alloc, text),
        None => Ok(None),
    }
}

/// The key of the request; an error is a want of memory.
fn key_in(alloc: Global, part: &Part<'_>) -> Result<Option<RequestKey>, AllocError>
    ensures { IfOk result (λ o. o ≡ key_in (column part.now 3)) }
{
    match text_in(part, history::REQ_KEY) {
        Some(text) => RequestKey::read(alloc, text),
        None => Ok(None),
    }
}

/// The command; an error is a want of memory.
fn command_in(alloc: Global, part: &Part<'_>) -> Result<Option<Command>, AllocError>
    ensures { IfOk result (λ o. o ≡ command_in (column part.now 4)) }
{
    match text_in(part, history::COMMAND) {
        Some(text) => one_command_of(alloc, text),
        None => Ok(None),
    }
}

/// The reply.
fn reply_in(part: &Part<'_>) -> Option<Reply>
    ensures { result ≡ reply_in (column part.now 5) }
{
    match text_in(part, history::REPLY) {
        Some(text) => accepted_of(text),
        None => None,
    }
}

/// What a row of `history` spells. The one fault is `NoMemory`, where the command or the caller found no room.
pub fn read_request(alloc: Global, part: Part<'_>) -> Result<Option<StoredRequest>, StatementFault>
    ensures spelled { IfOk result (λ x. option_map request_of x ≡ request_read part.entry) }
    ensures fault { IfErr result (λ e. e ≡ NoMemory) }
{
    if part.column_count() != history::COLUMNS {
        return Ok(None);
    }
    let Some(number) = request_count_in(&part, history::NUMBER) else {
        return Ok(None);
    };
    let Some(moment) = moment_in(&part, history::MOMENT) else {
        return Ok(None);
    };
    let Some(reply) = reply_in(&part) else {
        return Ok(None);
    };
    let Some(caller) = caller_in(alloc, &part)? else {
        return Ok(None);
    };
    let Some(key) = key_in(alloc, &part)? else {
        return Ok(None);
    };
    let command = command_in(alloc, &part)?;
    Ok(command.map(move |command| StoredRequest {
        number,
        moment,
        caller,
        key,
        command,
        reply,
    }))
}
