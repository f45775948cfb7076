//! Serving an input of request lines.

ghost use Rattle.std.specs.Prelude.{◌≡◌, ◌≢◌, ◌≤◌, ◌++◌, ◌∷◌, [], Err};
ghost use Rattle.std.specs.Io.KnownBytes.{Keeps};
ghost use Rattle.sqlite_trees.specs.View.{doubt};
ghost use Rattle.bike_commands.specs.Replies.{reply_text};
ghost use Rattle.bike_desk.specs.Desk.{desk_state, KeepsDatabase, OfOperator};
ghost use Rattle.bike_desk.specs.Runs.{StopsBy};
ghost use Rattle.bike_batch.specs.LineServing.{RepliesTo};
ghost use Rattle.bike_batch.specs.Runs.{AllChangeNothing, desk_fault, RanLines, ServesSome};

use crate::line_fault::LinesFault;
use arrayvec::ArrayString;
use bike_commands::{LINE_LENGTH, REPLY_LENGTH, Refusal, Reply};
use bike_desk::{Desk, DeskFault};
use bike_requests::read_line;
use bike_stream::{Line, LineBuffer, write_whole};
use sqlite::Alter;
use std::alloc::Global;
use std::io::{Read, Write};

/// How many reads of its input a run makes at most.
pub const MOST_READS: u32 = 1_000_000_000;

/// How many bytes of a line are kept: one more than a request line may have.
const KEPT: usize = LINE_LENGTH + 1;

/// The bytes of the longest answer line, its line feed counted.
const ANSWER_LENGTH: usize = REPLY_LENGTH + 1;

/// The reply's text and a line feed.
fn answer_text(reply: &Reply) -> ArrayString<ANSWER_LENGTH>
    ensures { result.bytes ≡ reply_text reply.now ++ 10 ∷ [] }
{
    let mut out = ArrayString::new();
    out.push_str(reply.text().as_str());
    out.push('\n');
    out
}

/// The reply to a line: that of the desk, where the line spells a request.
fn reply_to<S: Alter>(alloc: Global, desk: &mut Desk<S>, line: &[u8]) -> Result<Reply, DeskFault>
    ensures { RepliesTo S.Store desk.old desk.new line.now result }
{
    let Some(call) = read_line(alloc, line)? else {
        return Ok(Reply::Refused(Refusal::BadField));
    };
    let reply = desk.apply(alloc, call.0, &call.1);
    // The request's memory is freed before the next line is read.
    drop(call);
    reply
}

/// Serves the input line by line: each line gets one line of the output, its reply's text and a line feed,
/// before the next one is read. A line that spells no request, is longer than 4,096 bytes or isn't UTF-8 is
/// answered `refused⇥11⇥bad_field`. The lines are the parts between line feeds, the last one where it isn't
/// empty. Answers how many lines were served.
///
/// Lines of which each changes nothing of the operator, since it is refused or comes again, change nothing of the
/// database.
///
/// Memory is taken for one line and one read of 65,536 bytes, whatever the input's length, and then for lines that
/// spell a request alone; where it is refused the fault is `Desk(NoMemory)`. A stopped desk answers `Desk(Stopped)`
/// before anything is read.
pub fn run_lines<S: Alter, R: Read, W: Write>(
    alloc: Global,
    desk: &mut Desk<S>,
    reader: &mut R,
    writer: &mut W,
) -> Result<u64, LinesFault>
    // The answers are those of the lines, and the desk is at the operator after them.
    ensures clean { doubt (desk_state S.Store desk.old).is_clean ≤ doubt (desk_state S.Store desk.new).is_clean }
    ensures ran { OfOperator S.Store desk.old desk.new (λ s.
        RanLines S.Store desk.new s (R.remaining reader.old) (R.remaining reader.new)
        (W.contents writer.old) (W.contents writer.new) result) }
    ensures kept { OfOperator S.Store desk.old desk.new (λ s. ServesSome S.Store desk.new s (desk_fault result)) }
    // Lines that change nothing leave the database.
    ensures rests { OfOperator S.Store desk.old desk.new (λ s.
        AllChangeNothing s (R.remaining reader.old) → result ≢ Err (LinesFault.Desk DeskFault.StoreFailed)
        → KeepsDatabase S.Store desk.old desk.new) }
    // The end: a fault of the desk, which a stopped one is before anything is read.
    ensures stops { StopsBy desk.old desk.new (desk_fault result) }
    ensures refused { result ≡ Err (LinesFault.Desk DeskFault.Stopped)
        → Keeps (R.remaining reader.old) (R.remaining reader.new)
        × Keeps (W.contents writer.old) (W.contents writer.new) }
{
    if desk.stopped() {
        return Err(LinesFault::Desk(DeskFault::Stopped));
    }
    let mut buffer = LineBuffer::new(alloc)?;
    let mut line = Line::<KEPT>::new(alloc)?;
    let mut reads = MOST_READS;
    let mut count = 0;
    while buffer.next_line(reader, &mut line, &mut reads)? {
        let reply = reply_to(alloc, desk, line.as_slice())?;
        write_whole(writer, answer_text(&reply).as_bytes())?;
        count += 1;
    }
    Ok(count)
}
