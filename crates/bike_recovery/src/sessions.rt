//! Lists of requests are served over one store, with a stop of the program after each.

ghost use Rattle.std.specs.Prelude.{◌≡◌, ◌≤◌, ◌<◌, ◌+◌, ◌++◌, ◌∷◌, [], IfOk, IfErr, IfSome, length, map, vec_len};
ghost use Rattle.std.specs.Prelude.{vec_capacity};
ghost use Rattle.sqlite.specs.State.{HasCleanDisk};
ghost use Rattle.sqlite.specs.Steps.{over_memory};
ghost use Rattle.sqlite_trees.specs.View.{doubt};
ghost use Rattle.bike_operator.specs.Operator.{Operator, no_operator};
ghost use Rattle.bike_desk.specs.Desk.{desk_state, IsAt};
ghost use Rattle.bike_desk.specs.Runs.{IsAtFront};
ghost use Rattle.bike_recovery.specs.Recovery.{AreReplies};
ghost use Rattle.bike_recovery.specs.Losses.{IsOnlyWant};
ghost use Rattle.bike_recovery.specs.SessionsServed.{ServesSessions};

use crate::crash::{Acknowledged, Lost, resume};
use bike_audit::adopt;
use bike_commands::Request;
use bike_desk::Desk;
use bike_fixed::Moment;
use sqlite::{Alter, Connection, MemStore};
use sqlite_trees::store::Reopen;
use std::alloc::Global;

/// What came of serving sessions.
#[derive(Drop)]
pub struct SessionsServed<S: Alter> {
    /// What was acknowledged in each session that was served, in order.
    pub told: Vec<Acknowledged>,
    /// The desk after the last stop, or why what the last session left wasn't taken into service again.
    pub end: Result<Desk<S>, Lost<S>>,
}

/// Adds what a session was told, for which there is room.
fn note(told: &mut Vec<Acknowledged>, session: Acknowledged)
    requires { vec_len told.old < vec_capacity told.old }
    ensures items { told.new.items ≡ told.old.items ++ session ∷ [] }
    ensures len { vec_len told.new ≡ vec_len told.old + 1 }
    ensures capacity { vec_capacity told.old ≤ vec_capacity told.new }
{
    let _ = told.push(session);
}

/// Serves one session: a list of requests, a stop, and an adoption of what it leaves.
fn serve_session<S: Alter + Reopen + Drop>(
    alloc: Global,
    mut desk: Desk<S>,
    calls: &[(Moment, Request)],
) -> (Acknowledged, Result<Desk<S>, Lost<S>>)
    ensures clean { IfOk result.1 (λ again. doubt (desk_state S.Store desk).is_clean
        ≤ doubt (desk_state S.Store again).is_clean) }
    ensures front { (s : Operator) → IsAt S.Store desk s
        → IfOk result.1 (λ again. HasCleanDisk (desk_state S.Store again)
        → IsAtFront S.Store again s calls.now (length result.0.replies.items)) }
    ensures replies { (s : Operator) → IsAt S.Store desk s
        → IfOk result.1 (λ again. HasCleanDisk (desk_state S.Store again)
        → AreReplies s calls.now result.0.replies.items) }
    ensures refused { (HasCleanDisk (desk_state S.Store desk) → (s : Operator) × IsAt S.Store desk s)
        → IfErr result.1 (IsOnlyWant S.Store) }
{
    let run = desk.run_list(alloc, calls);
    let told = Acknowledged {
        replies: run.replies,
        end: run.end,
    };
    (told, resume(alloc, desk))
}

/// Serves lists of requests over one store, each in a session of its own: the store crashes after each, and what that
/// leaves is taken into service again, as `run_crash_and_read` does. The first that isn't taken into service again ends
/// it. The desk is handed back where memory is refused before the first request.
///
/// What was told are the answers of the sessions, of which all laws of retries hold: a request that comes again in a
/// later session was accepted once, and is answered as it was.
pub fn serve_sessions<S: Alter + Reopen + Drop>(
    alloc: Global,
    desk: Desk<S>,
    sessions: &[Vec<(Moment, Request)>],
) -> Result<SessionsServed<S>, Desk<S>>
    ensures served { (s : Operator) → IsAt S.Store desk s
        → IfOk result (λ r. IfOk r.end (λ again. HasCleanDisk (desk_state S.Store again)
        → ServesSessions S.Store again s
        (map (λ calls. calls.items) sessions.now) (map (λ a. a.replies.items) r.told.items))) }
    ensures refused { (s : Operator) → IsAt S.Store desk s → IfOk result (λ r. IfErr r.end (IsOnlyWant S.Store)) }
    ensures handed { IfErr result (λ d. d ≡ desk) }
{
    let mut told = match Vec::with_capacity(alloc, sessions.len()) {
        Ok(told) => told,
        Err(_) => return Err(desk),
    };
    let mut now = desk;
    'sessions: for calls in sessions {
        let (session, resumed) = serve_session(alloc, now, calls.as_slice());
        note(&mut told, session);
        match resumed {
            Ok(again) => now = again,
            Err(lost) => {
                return Ok(SessionsServed {
                    told,
                    end: Err(lost),
                });
            }
        }
    }
    Ok(SessionsServed { told, end: Ok(now) })
}

/// `serve_sessions` from nothing, over a database in memory, as `run_in_memory` is to `run_crash_and_read`: with no
/// premise. None where memory is refused before the first request.
pub fn serve_sessions_in_memory(
    alloc: Global,
    sessions: &[Vec<(Moment, Request)>],
) -> Option<SessionsServed<MemStore>>
    ensures served { IfSome result (λ r. IfOk r.end (λ again.
        ServesSessions over_memory again no_operator
        (map (λ calls. calls.items) sessions.now) (map (λ a. a.replies.items) r.told.items))) }
    ensures refused { IfSome result (λ r. IfErr r.end (IsOnlyWant over_memory)) }
{
    let Ok(conn) = Connection::open_in_memory(alloc) else {
        return None;
    };
    let Ok(desk) = adopt(alloc, conn) else {
        return None;
    };
    let Ok(served) = serve_sessions(alloc, desk, sessions) else {
        return None;
    };
    Some(served)
}
