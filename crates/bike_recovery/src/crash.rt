//! A list of requests is served, the program stops, and what is left is taken into service again and read.

ghost use Rattle.std.specs.Prelude.{◌≡◌, ◌≤◌, false, IfOk, IfErr, IfSome, IsNone, length};
ghost use Rattle.sqlite.specs.State.{HasCleanDisk};
ghost use Rattle.sqlite.specs.Held.{state};
ghost use Rattle.sqlite.specs.Steps.{over_memory};
ghost use Rattle.sqlite_trees.specs.View.{doubt};
ghost use Rattle.bike_operator.specs.Operator.{Operator, no_operator};
ghost use Rattle.bike_desk.specs.Desk.{desk_state, IsAt, OfOperator};
ghost use Rattle.bike_audit.specs.Adoption.{handed, IsWant};
ghost use Rattle.bike_desk.specs.Runs.{IsAfterFront, IsAtFront, Ran, StopsBy};
ghost use Rattle.bike_schema.specs.Stands.{AllLeft};
ghost use Rattle.bike_recovery.specs.Recovery.{AreReplies, CrashMayLeave, IfReadAgain, ReadsFront, TellsStopped};
ghost use Rattle.bike_recovery.specs.Losses.{IsOnlyWant, StandForSome};

use crate::reading::{Reading, read_again};
use crate::reopening::{Shut, open_again};
use bike_audit::{AdoptFault, adopt};
use bike_commands::{Reply, Request};
use bike_desk::{Desk, DeskFault};
use bike_fields::BicycleNumber;
use bike_fixed::Moment;
use sqlite::{Alter, Connection, MemStore};
use sqlite_trees::store::Reopen;
use std::alloc::Global;
use std::io::Write;

/// What was acknowledged of a list of requests: the replies to a front of it, and the fault that ended it.
#[derive(Drop)]
pub struct Acknowledged {
    /// The replies, in order.
    pub replies: Vec<Reply>,
    /// The fault of the request after them; none where the whole list is answered.
    pub end: Option<DeskFault>,
}

/// Serves a list of requests, then takes into service any database that a stop at any storage call up to then may
/// leave, and reads it: where the bicycle is, and the feed `station_status` for a moment.
///
/// What is read is that of the operator after the accepted commands of a front of the list, which holds every
/// acknowledged request and at most one more. The replies are those to a front of the list, and the desk is as
/// `run_list` leaves it. Adopting what is left is refused for memory or storage alone.
pub fn run_adopt_and_read<S: Alter, T: Alter, W: Write>(
    alloc: Global,
    desk: &mut Desk<S>,
    calls: &[(Moment, Request)],
    left: Connection<T>,
    bike: BicycleNumber,
    moment: Moment,
    out: &mut W,
) -> (Acknowledged, Result<(Desk<T>, Reading), AdoptFault<T>>)
    requires { left.in_transaction ≡ false }
    ensures headline { OfOperator S.Store desk.old desk.new (λ s. CrashMayLeave S.Store desk.new T.Store left
        → IfReadAgain T.Store result.1 (λ again reading. ReadsFront T.Store again s calls.now
        (length result.0.replies.items) bike moment (W.contents out.old) (W.contents out.new) reading)) }
    ensures refused { OfOperator S.Store desk.old desk.new (λ s. CrashMayLeave S.Store desk.new T.Store left
        → IfErr result.1 (λ e. HasCleanDisk (state T.Store (handed e)) → IsWant e)) }
    ensures ran { OfOperator S.Store desk.old desk.new (λ s.
        Ran S.Store desk.new s calls.now result.0.replies.items result.0.end) }
    ensures stops { StopsBy desk.old desk.new result.0.end }
{
    let run = desk.run_list(alloc, calls);
    let told = Acknowledged {
        replies: run.replies,
        end: run.end,
    };
    match adopt(alloc, left) {
        Ok(mut again) => {
            let reading = read_again(alloc, &mut again, bike, moment, out);
            (told, Ok((again, reading)))
        }
        Err(fault) => (told, Err(fault)),
    }
}

/// Why a store wasn't taken into service again.
#[derive(Drop)]
pub enum Lost<S: Alter> {
    /// It couldn't be opened again.
    Shut(Shut<S>),
    /// What it holds is refused.
    Refused(AdoptFault<S>),
}

/// A crash of the desk's store at this moment, and an adoption of what it leaves.
pub(crate) fn resume<S: Alter + Reopen + Drop>(
    alloc: Global,
    desk: Desk<S>,
) -> Result<Desk<S>, Lost<S>>
    ensures clean { IfOk result (λ again. doubt (desk_state S.Store desk).is_clean
        ≤ doubt (desk_state S.Store again).is_clean) }
    ensures front { IfOk result (λ again. HasCleanDisk (desk_state S.Store again) → (s : Operator) (calls : _) (k : _)
        → AllLeft (desk_state S.Store desk) (IsAfterFront s calls k) → IsAtFront S.Store again s calls k) }
    ensures refused { (HasCleanDisk (desk_state S.Store desk) → AllLeft (desk_state S.Store desk) StandForSome)
        → IfErr result (IsOnlyWant S.Store) }
{
    let conn = match open_again(alloc, desk.close()) {
        Ok(conn) => conn,
        Err(shut) => return Err(Lost::Shut(shut)),
    };
    match adopt(alloc, conn) {
        Ok(desk) => Ok(desk),
        Err(fault) => Err(Lost::Refused(fault)),
    }
}

/// Serves a list of requests, crashes, takes what the crash left into service again, and reads it as
/// `run_adopt_and_read` does. The store isn't open again for want of memory or a fault of the disk alone, and what it
/// holds is refused for memory or storage alone. The list ends with `Stopped` exactly where the desk was stopped
/// before.
pub fn run_crash_and_read<S: Alter + Reopen + Drop, W: Write>(
    alloc: Global,
    mut desk: Desk<S>,
    calls: &[(Moment, Request)],
    bike: BicycleNumber,
    moment: Moment,
    out: &mut W,
) -> (Acknowledged, Result<(Desk<S>, Reading), Lost<S>>)
    ensures headline { (s : Operator) → IsAt S.Store desk s
        → IfReadAgain S.Store result.1 (λ again reading. ReadsFront S.Store again s calls.now
        (length result.0.replies.items) bike moment (W.contents out.old) (W.contents out.new) reading) }
    ensures replies { (s : Operator) → IsAt S.Store desk s
        → IfReadAgain S.Store result.1 (λ again reading. AreReplies s calls.now result.0.replies.items) }
    ensures refused { (s : Operator) → IsAt S.Store desk s → IfErr result.1 (IsOnlyWant S.Store) }
    ensures whole { IsNone result.0.end → length result.0.replies.items ≡ length calls.now }
    ensures stopped { TellsStopped desk.is_stopped result.0.end }
{
    let run = desk.run_list(alloc, calls);
    let told = Acknowledged {
        replies: run.replies,
        end: run.end,
    };
    match resume(alloc, desk) {
        Ok(mut again) => {
            let reading = read_again(alloc, &mut again, bike, moment, out);
            (told, Ok((again, reading)))
        }
        Err(lost) => (told, Err(lost)),
    }
}

/// `run_crash_and_read` from nothing, over a database in memory: nothing has to be supposed of a disk, so that the
/// promise's premises can be met together. None where memory is refused before the first request.
pub fn run_in_memory<W: Write>(
    alloc: Global,
    calls: &[(Moment, Request)],
    bike: BicycleNumber,
    moment: Moment,
    out: &mut W,
) -> Option<
    (
        Acknowledged,
        Result<(Desk<MemStore>, Reading), Lost<MemStore>>,
    ),
>
    ensures headline { IfSome result (λ r. IfOk r.1 (λ read. ReadsFront over_memory read.0 no_operator calls.now
        (length r.0.replies.items) bike moment (W.contents out.old) (W.contents out.new) read.1)) }
    ensures replies { IfSome result (λ r. IfOk r.1 (λ read. AreReplies no_operator calls.now r.0.replies.items)) }
    ensures refused { IfSome result (λ r. IfErr r.1 (IsOnlyWant over_memory)) }
{
    let Ok(conn) = Connection::open_in_memory(alloc) else {
        return None;
    };
    let Ok(desk) = adopt(alloc, conn) else {
        return None;
    };
    Some(run_crash_and_read(alloc, desk, calls, bike, moment, out))
}
