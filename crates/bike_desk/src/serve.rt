//! Serving one request: from its kept answer, or by a decision on what it names.

ghost use Rattle.std.specs.Prelude.{◌≡◌, ◌≤◌, false, IfOk, IfSome, OnOk, OnErr, [], string_bytes, if◌then◌else◌};
ghost use Rattle.std.specs.Option.{ok_or};
ghost use Rattle.std.specs.Str.{bytes_eq};
ghost use Rattle.sqlite.specs.Held.{state};
ghost use Rattle.sqlite_trees.specs.View.{doubt};
ghost use Rattle.bike_commands.specs.Commands.{text_of};
ghost use Rattle.bike_operator.specs.Runs.{step, after_acceptance};
ghost use Rattle.bike_booking.specs.Figures.{figures_after};
ghost use Rattle.bike_schema.specs.Makes.{OthersStay};
ghost use Rattle.bike_schema.specs.Stands.{Keeps};
ghost use Rattle.bike_desk.specs.Desk.{IsRemembered};
ghost use Rattle.bike_desk.specs.Kept.{CrashLeavesEither, ForEachKept, ForEachRead};
ghost use Rattle.bike_desk.specs.Kept.{ForEachStored, IsAnew, StaysWith};
ghost use Rattle.bike_desk.specs.Serving.{IsAsked, Serves};

use crate::remembered::DeskMemory;
use crate::transaction::make_all;
use bike_accepted::Accepted;
use bike_book::RequestCount;
use bike_booking::{Figures, KeptTexts, Stored, books_accepted, rows_of};
use bike_commands::{Refusal, Reply, Request};
use bike_core::decide;
use bike_fixed::Moment;
use bike_office_reads::{KeptRow, find_kept};
use bike_operator::{View, is_bounded};
use bike_schema::StatementFault;
use bike_views::{KnownFigures, StationDocks, ViewAndDocks, find_stored, find_view, know_figures};
use sqlite::{Alter, Connection};
use std::alloc::Global;

/// A request with the texts of its caller and of its command.
#[derive(Clone, Copy)]
pub(crate) struct RequestTexts<'a> {
    pub(crate) request: &'a Request,
    pub(crate) caller: &'a str,
    pub(crate) text: &'a str,
}

/// What serving a request gives: its reply, and the operator's figures after it, as far as they are known.
#[derive(Clone, Copy)]
pub(crate) struct Outcome {
    pub(crate) reply: Reply,
    pub(crate) figures: Option<Figures>,
}

/// What a kept key is answered: as before where the command is the same.
fn kept_answer(kept: &KeptRow, text: &str) -> Reply
    ensures { result ≡ (if bytes_eq (string_bytes kept.now.command) text.now then kept.now.reply
        else Reply.Refused Refusal.KeyReused) }
{
    if kept.command.as_str() == text {
        kept.reply
    } else {
        Reply::Refused(Refusal::KeyReused)
    }
}

/// The operator's figures after an accepted command. `StoreFailed` where no further request can be numbered.
fn next_figures(
    figures: &Figures,
    now: Moment,
    accepted: &Accepted<'_>,
) -> Result<Figures, StatementFault>
    ensures { result ≡ ok_or (figures_after figures.entry.now now accepted.now) StatementFault.StoreFailed }
{
    figures
        .after(now, accepted)
        .ok_or(StatementFault::StoreFailed)
}

/// Makes the row changes of an accepted command of which this is stored, and adds its request with this number to the
/// history, all in one transaction.
fn store_rows<'a, S: Alter>(
    alloc: Global,
    conn: &mut Connection<S>,
    accepted: &'a Accepted<'a>,
    stored: &'a Stored,
    number: RequestCount,
    now: Moment,
    texts: &KeptTexts<'a>,
) -> Result<(), StatementFault>
    requires outside { conn.old.in_transaction ≡ false }
    // No transaction is left open.
    ensures ended { conn.new.in_transaction ≡ false }
    ensures clean { doubt (state S.Store conn.old).is_clean ≤ doubt (state S.Store conn.new).is_clean }
    // Done: the operator after the acceptance, and other tables as before.
    ensures made { ForEachStored S.Store conn.old conn.new now accepted.now stored.now number texts.now
        (λ s q. OnOk result (Keeps (state S.Store conn.new) (after_acceptance s now q))) }
    ensures others { ForEachStored S.Store conn.old conn.new now accepted.now stored.now number texts.now
        (λ s q. OnOk result (OthersStay (state S.Store conn.old).now (state S.Store conn.new).now)) }
    // Whatever the end, a crash leaves the operator before or after.
    ensures left { ForEachStored S.Store conn.old conn.new now accepted.now stored.now number texts.now
        (λ s q. CrashLeavesEither (state S.Store conn.new) s (after_acceptance s now q)) }
{
    books_accepted();
    let rows = rows_of(accepted, stored, now, number, texts);
    make_all(alloc, conn, rows.as_slice())
}

/// Serves a request whose key isn't kept by a decision on what was read for it: the operator's figures, and the view
/// with the docks that came with it. `StoreFailed` also where no further request can be numbered.
fn serve_read<'a, S: Alter>(
    alloc: Global,
    conn: &mut Connection<S>,
    figures: &Figures,
    view: &'a View,
    docks: Option<StationDocks>,
    now: Moment,
    asked: RequestTexts<'a>,
) -> Result<Outcome, StatementFault>
    requires outside { conn.old.in_transaction ≡ false }
    requires asked { IsAsked asked }
    // No transaction is left open.
    ensures ended { conn.new.in_transaction ≡ false }
    ensures clean { doubt (state S.Store conn.old).is_clean ≤ doubt (state S.Store conn.new).is_clean }
    // Done: the step of the operator, other tables as before, and all where the step changes nothing.
    ensures ok { ForEachRead S.Store conn.old conn.new now asked.entry.request.now figures.entry.now view.now docks
        (λ s t. IfOk result (Serves (state S.Store conn.new) (step s t asked.entry.request.now))) }
    ensures others { ForEachRead S.Store conn.old conn.new now asked.entry.request.now figures.entry.now view.now docks
        (λ s t. OnOk result (OthersStay (state S.Store conn.old).now (state S.Store conn.new).now)) }
    ensures rests { ForEachRead S.Store conn.old conn.new now asked.entry.request.now figures.entry.now view.now docks
        (λ s t. StaysWith S.Store conn.old conn.new s (step s t asked.entry.request.now).1 result) }
    // Failed: a crash leaves the operator before or after.
    ensures failed { ForEachRead S.Store conn.old conn.new now asked.entry.request.now figures.entry.now view.now docks
        (λ s t. OnErr result (CrashLeavesEither (state S.Store conn.new) s (step s t asked.entry.request.now).1)) }
{
    let request = asked.request;
    // Every view of a sound operator is bounded: else what is stored is nobody's.
    if !is_bounded(view, now) {
        return Err(StatementFault::StoreFailed);
    }
    match decide(view, now, &request.command) {
        Err(refusal) => Ok(Outcome {
            reply: Reply::Refused(refusal),
            figures: Some(*figures),
        }),
        Ok(accepted) => {
            books_accepted();
            let after = next_figures(figures, now, &accepted)?;
            let stored = find_stored(alloc, conn, docks, &accepted.moved)?;
            let reply = accepted.reply;
            let spelled = reply.text();
            let key = request.key.as_str();
            let texts = KeptTexts {
                caller: asked.caller,
                key,
                command: asked.text,
                reply: spelled.as_str(),
            };
            let number = after.requests;
            store_rows(alloc, conn, &accepted, &stored, number, now, &texts)?;
            Ok(Outcome {
                reply,
                figures: Some(after),
            })
        }
    }
}

/// Serves a request whose key isn't kept.
fn serve_anew<'a, S: Alter>(
    alloc: Global,
    conn: &mut Connection<S>,
    moment: Moment,
    asked: RequestTexts<'a>,
    remembered: &DeskMemory,
) -> Result<Outcome, StatementFault>
    requires outside { conn.old.in_transaction ≡ false }
    requires asked { IsAsked asked }
    // No transaction is left open.
    ensures ended { conn.new.in_transaction ≡ false }
    ensures clean { doubt (state S.Store conn.old).is_clean ≤ doubt (state S.Store conn.new).is_clean }
    // Done: the step of the operator, other tables as before, and all where the step changes nothing.
    ensures ok { ForEachKept S.Store conn.old conn.new (λ s. IsRemembered s remembered.now → IsAnew s asked.entry
        → IfOk result (Serves (state S.Store conn.new) (step s moment asked.entry.request.now))) }
    ensures others { ForEachKept S.Store conn.old conn.new (λ s. IsRemembered s remembered.now → IsAnew s asked.entry
        → OnOk result (OthersStay (state S.Store conn.old).now (state S.Store conn.new).now)) }
    ensures rests { ForEachKept S.Store conn.old conn.new (λ s. IsRemembered s remembered.now → IsAnew s asked.entry
        → StaysWith S.Store conn.old conn.new s (step s moment asked.entry.request.now).1 result) }
    // Failed: a crash leaves the operator before or after.
    ensures failed { ForEachKept S.Store conn.old conn.new (λ s. IsRemembered s remembered.now → IsAnew s asked.entry
        → OnErr result (CrashLeavesEither (state S.Store conn.new) s (step s moment asked.entry.request.now).1)) }
{
    let figures = know_figures(conn, &remembered.figures)?;
    let known = KnownFigures {
        figures,
        newest_tells: remembered.newest_tells,
    };
    let request = asked.request;
    let found = find_view(alloc, conn, &request.command, &known)?;
    let now = moment.later(&figures.now);
    let ViewAndDocks { view, docks } = found;
    serve_read(alloc, conn, &figures, &view, docks, now, asked)
}

/// Serves one request, of whose command `text` is the text, by what is remembered of the operator.
pub(crate) fn serve<S: Alter>(
    alloc: Global,
    conn: &mut Connection<S>,
    moment: Moment,
    request: &Request,
    text: &str,
    remembered: &DeskMemory,
) -> Result<Outcome, StatementFault>
    requires outside { conn.old.in_transaction ≡ false }
    requires text { text.now ≡ text_of request.now.command }
    // No transaction is left open.
    ensures ended { conn.new.in_transaction ≡ false }
    ensures clean { doubt (state S.Store conn.old).is_clean ≤ doubt (state S.Store conn.new).is_clean }
    // Done: the step of the operator, other tables as before, and all where the step changes nothing.
    ensures ok { ForEachKept S.Store conn.old conn.new (λ s. IsRemembered s remembered.now
        → IfOk result (Serves (state S.Store conn.new) (step s moment request.now))) }
    ensures others { ForEachKept S.Store conn.old conn.new (λ s. IsRemembered s remembered.now
        → OnOk result (OthersStay (state S.Store conn.old).now (state S.Store conn.new).now)) }
    ensures rests { ForEachKept S.Store conn.old conn.new (λ s. IsRemembered s remembered.now
        → StaysWith S.Store conn.old conn.new s (step s moment request.now).1 result) }
    // Failed: a crash leaves the operator before or after.
    ensures failed { ForEachKept S.Store conn.old conn.new (λ s. IsRemembered s remembered.now
        → OnErr result (CrashLeavesEither (state S.Store conn.new) s (step s moment request.now).1)) }
{
    let caller = request.caller.text();
    let caller = caller.as_str();
    match find_kept(alloc, conn, caller, request.key.as_str())? {
        Some(kept) => Ok(Outcome {
            reply: kept_answer(&kept, text),
            figures: remembered.figures,
        }),
        None => {
            let asked = RequestTexts {
                request,
                caller,
                text,
            };
            serve_anew(alloc, conn, moment, asked, remembered)
        }
    }
}
