//! One exchange.

ghost use Rattle.std.specs.Prelude.{◌≡◌, ◌≤◌, IsTrue, Ok};
ghost use Rattle.sqlite_trees.specs.View.{doubt};
ghost use Rattle.bike_desk.specs.Desk.{desk_state, OfOperator};
ghost use Rattle.bike_http.specs.Exchange.{Response};
ghost use Rattle.bike_http.specs.Again.{CameBefore, SendsAgain};
ghost use Rattle.bike_http.specs.Telling.{end_of_sending, Serves, LeavesTables, Rests, Refuses, IsDone};

use crate::respond::respond;
use bike_desk::Desk;
use bike_fixed::Moment;
use bike_http_head::Routes;
use bike_http_request::{ReceiveFault, receive};
use bike_http_response::{Answer, Status, write_answer};
use bike_stream::WriteFault;
use sqlite::Alter;
use std::alloc::Global;
use std::io::{Read, Write};
use thiserror::Error;

/// How an exchange ended whose answer was written.
#[derive(Clone, Copy, Debug, PartialEq, Eq)]
pub enum Served {
    /// The input has no byte, and nothing was written.
    Empty,
    /// An answer of this status was written whole.
    Status(u16),
}

/// Why an exchange has no answer, or only a front of one.
#[derive(Clone, Copy, Debug, PartialEq, Eq, Error)]
pub enum ServeFault {
    /// The input failed, or more reads than 20,000 were needed; nothing was written.
    #[error("read failed")]
    Read,
    /// A write failed before the answer was whole.
    #[error("write failed")]
    Write,
    /// A feed's head and a front of its body were written, then the desk failed: this never comes, since a feed is made
    /// before its head.
    #[error("feed cut off")]
    Cut,
}

/// How an exchange ends, as the sending of its response ended.
fn ended(sent: Result<Status, WriteFault>) -> Result<Served, ServeFault>
    ensures { result ≡ end_of_sending sent }
{
    match sent {
        Ok(status) => Ok(Served::Status(status.code())),
        Err(WriteFault) => Err(ServeFault::Write),
    }
}

/// Serves one exchange: reads what the input asks for, asks the desk once, and writes the response.
///
/// The answer is 503 where memory is refused or the desk fails before the response's head; the desk then goes on at the
/// operator before the request, or it is stopped and a crash leaves it or the one after it. `Read` comes where a read
/// fails or more than 20,000 are needed, and then nothing is asked of the desk; `Write` where a write fails, after a
/// front of the response or of the 503. `Cut` never comes. A stopped desk stays as it is: what asks for nothing is
/// rejected as ever, and all else is answered 503. A request that was accepted before, by this
/// desk or by one that stopped since, is sent its first response again, or 503, and changes nothing. Where a request
/// leaves the operator as it is, since it is rejected or refused or comes again, and the desk goes on, the whole
/// database is as it was.
pub fn serve_one<S: Alter, R: Read, W: Write>(
    alloc: Global,
    desk: &mut Desk<S>,
    routes: &Routes,
    moment: Moment,
    reader: &mut R,
    writer: &mut W,
) -> Result<Served, ServeFault>
    // What is sent, and where the desk is then.
    ensures clean { doubt (desk_state S.Store desk.old).is_clean ≤ doubt (desk_state S.Store desk.new).is_clean }
    ensures served { OfOperator S.Store desk.old desk.new (λ s.
        Serves S.Store desk.new s moment (R.remaining reader.old)
        (W.contents writer.old) (W.contents writer.new) result) }
    ensures done { OfOperator S.Store desk.old desk.new (λ s.
        result ≡ Ok (Served.Status 200) → IsDone S.Store desk.new s moment (R.remaining reader.old)) }
    // A request that was accepted before is sent its first response, or 503.
    ensures again { OfOperator S.Store desk.old desk.new (λ s. (first : Response)
        → CameBefore (R.remaining reader.old) s first
        → SendsAgain S.Store desk.new s first (W.contents writer.old) (W.contents writer.new) result) }
    // What changes nothing of the operator changes nothing of the database, and what asks for nothing asks nothing.
    ensures tables { OfOperator S.Store desk.old desk.new (λ s.
        LeavesTables S.Store desk.old desk.new s moment (R.remaining reader.old)) }
    ensures rests { Rests desk.old desk.new (W.contents writer.old) (W.contents writer.new) result }
    // A stopped desk.
    ensures stays { IsTrue desk.old.is_stopped → desk.new ≡ desk.old }
    ensures refuses { IsTrue desk.old.is_stopped
        → Refuses (R.remaining reader.old) (W.contents writer.old) (W.contents writer.new) result }
{
    match receive(alloc, routes, reader) {
        Ok(None) => Ok(Served::Empty),
        Ok(Some(asked)) => ended(respond(alloc, desk, moment, asked, writer)),
        Err(ReceiveFault::NoMemory) => ended(write_answer(writer, &Answer::Unavailable)),
        Err(ReceiveFault::Read) => Err(ServeFault::Read),
    }
}
