//! The history as request lines.

ghost use Rattle.std.specs.Prelude.{◌≡◌, ◌<◌, ◌++◌, ◌∷◌, [], IfOk, IfSome, IsTrue, List, OnOk, None, Some};
ghost use Rattle.std.specs.Prelude.{string_bytes};
ghost use Rattle.std.specs.Io.KnownBytes.{Keeps};
ghost use Rattle.bike_operator.specs.Requests.{RequestTexts, line_again};
ghost use Rattle.bike_day_texts.specs.Writing.{WritesLine};
ghost use Rattle.bike_desk.specs.Desk.{OfOperator};
ghost use Rattle.bike_batch.specs.Again.{lines_again};
ghost use Rattle.bike_batch.specs.HistoryEnds.{LeavesHistory, WritesHistory};

use crate::history_fault::HistoryFault;
use bike_day_texts::LineFault;
use bike_desk::Desk;
use bike_operator::RequestInfo;
use bike_stream::write_whole;
use itoa::Buffer;
use sqlite::Alter;
use std::alloc::{AllocError, Global};
use std::io::Write;

/// Appends the line that sends a request again, and a line feed.
fn push_line(text: &mut String, request: &RequestInfo) -> Result<(), AllocError>
    ensures { OnOk result (string_bytes text.new ≡ string_bytes text.old ++ (line_again request.now ++ 10 ∷ [])) }
{
    let mut moment = Buffer::new();
    text.push_str(moment.format(request.moment.seconds()))?;
    text.push('\t')?;
    text.push_str(request.caller.as_str())?;
    text.push('\t')?;
    text.push_str(request.key.as_str())?;
    text.push('\t')?;
    text.push_str(request.command.as_str())?;
    text.push('\n')
}

/// The lines of requests; an error where memory was refused.
fn page_text(alloc: Global, requests: &[RequestInfo]) -> Result<String, AllocError>
    ensures { IfOk result (λ text. string_bytes text ≡ lines_again requests.now) }
{
    let mut text = String::new(alloc);
    for request in requests {
        push_line(&mut text, request)?;
    }
    Ok(text)
}

/// Writes the lines of requests, which are made in memory first.
fn write_page<W: Write>(
    alloc: Global,
    requests: &[RequestInfo],
    out: &mut W,
) -> Result<(), LineFault>
    ensures { WritesLine (W.contents out.old) (W.contents out.new) (lines_again requests.now) result }
{
    let text = page_text(alloc, requests)?;
    write_whole(out, text.as_bytes())?;
    Ok(())
}

/// The number of the last request, where there is one and its number is later than this.
fn last_behind(requests: &[RequestInfo], number: u64) -> Option<u64>
    ensures some { (front : List RequestTexts) (x : RequestTexts) → requests.now ≡ front ++ x ∷ [] → number < x.number
        → result ≡ Some x.number }
    ensures none { requests.now ≡ [] → result ≡ None }
    ensures later { IfSome result (λ last. number < last) }
{
    let (last, _) = requests.split_last()?;
    if last.number > number {
        Some(last.number)
    } else {
        None
    }
}

/// Writes the history behind a number of the operator for which the desk stands, all of it where the number is 0: each
/// request as a line that `run_lines` would serve again, its moment the operator's after it.
///
/// It is read page by page, and a page is written before the next is read. After `Write` a front of the lines is
/// written, and not all; so it is after `NoMemory`, which is that of a page's lines; after another fault of the desk a
/// front, or all. What is kept never changes. `NoMemory` and `Write` leave the desk as it was, `StoreFailed` stops it,
/// and a stopped desk answers `Stopped`, stays as it is and writes nothing.
pub fn write_history<S: Alter, W: Write>(
    alloc: Global,
    desk: &mut Desk<S>,
    after: u64,
    out: &mut W,
) -> Result<(), HistoryFault>
    ensures desk { LeavesHistory S.Store desk.old desk.new result }
    ensures wrote { OfOperator S.Store desk.old desk.new (λ s.
        WritesHistory s after (W.contents out.old) (W.contents out.new) result) }
    ensures nothing { IsTrue desk.old.is_stopped → Keeps (W.contents out.old) (W.contents out.new) }
{
    let mut number = after;
    let mut page = desk.requests_after(alloc, number)?;
    // Each page ends with a later number than the one before.
    'pages: loop {
        let Some(last) = last_behind(page.requests(), number) else {
            return Ok(());
        };
        write_page(alloc, page.requests(), out)?;
        number = last;
        page = desk.requests_after(alloc, number)?;
    }
}
