//! The tables of a span of time, each row read from the desk as it is written.

ghost use Rattle.std.specs.Prelude.{◌≡◌, ◌≢◌, ◌<◌, Err, IfOk, IfSome, Some, option_map};
ghost use Rattle.bike_day_texts.specs.Ended.{info_row};
ghost use Rattle.bike_day_texts.specs.Rows.{ended_line};
ghost use Rattle.bike_day_texts.specs.Writing.{WritesLine};
ghost use Rattle.bike_day_texts.specs.declared.table.DayTable.TheVariants.{Entries, Rentals, Requests};
ghost use Rattle.bike_operator.specs.declared.rental_info.ClosingInfo.{ClosingInfo};
ghost use Rattle.bike_operator.specs.Requests.{request_texts};
ghost use Rattle.bike_queries.specs.Requests.{request_after};
ghost use Rattle.bike_desk.specs.Queries.{Queries};
ghost use Rattle.bike_batch.specs.Days.{span_text};
ghost use Rattle.bike_batch.specs.Walking.{WritesTable};

use crate::day_fault::DayTableFault;
use bike_day_texts::{DayTable, LineFault, write_ended, write_entry, write_header, write_request};
use bike_desk::{Desk, DeskFault};
use bike_fields::RentalNumber;
use bike_fixed::Moment;
use bike_operator::{RentalInfo, RequestInfo};
use sqlite::Alter;
use std::alloc::Global;
use std::io::Write;

/// Writes the table of the entries of a span.
pub(crate) fn write_entries<S: Alter, W: Write>(
    alloc: Global,
    desk: &mut Desk<S>,
    begin: Moment,
    until: Moment,
    out: &mut W,
) -> Result<(), DayTableFault>
    ensures { WritesTable S.Store desk.old desk.new (W.contents out.old) (W.contents out.new) result
        (λ s. span_text s Entries begin until) }
{
    let mut next = desk.entry_after(0, begin, until)?;
    write_header(alloc, DayTable::Entries, out)?;
    'entries: for written in 0..usize::MAX {
        let Some(entry) = next else {
            return Ok(());
        };
        write_entry(alloc, &entry, out)?;
        next = desk.entry_after(u64::from(entry.number().get()), begin, until)?;
    }
    // No table is that long.
    Err(DayTableFault::Write)
}

/// Writes the row of a rental that ended, which has this number.
fn write_rental<W: Write>(
    alloc: Global,
    ended: &(RentalNumber, RentalInfo),
    out: &mut W,
) -> Result<(), LineFault>
    ensures { (closing : ClosingInfo) → ended.now.1.closing ≡ Some closing
        → WritesLine (W.contents out.old) (W.contents out.new)
        (ended_line (info_row ended.now.0 ended.now.1 closing)) result }
{
    let (number, rental) = ended;
    let Some(closing) = &rental.closing else {
        // A rental that ended is closed.
        return Err(LineFault::Write);
    };
    write_ended(alloc, *number, rental, closing, out)
}

/// Writes the table of the rentals that ended in a span.
pub(crate) fn write_rentals<S: Alter, W: Write>(
    alloc: Global,
    desk: &mut Desk<S>,
    begin: Moment,
    until: Moment,
    out: &mut W,
) -> Result<(), DayTableFault>
    ensures { WritesTable S.Store desk.old desk.new (W.contents out.old) (W.contents out.new) result
        (λ s. span_text s Rentals begin until) }
{
    let mut next = desk.ended_after(alloc, 0, begin, until)?;
    write_header(alloc, DayTable::Rentals, out)?;
    'rentals: for written in 0..usize::MAX {
        let Some(ended) = next else {
            return Ok(());
        };
        write_rental(alloc, &ended, out)?;
        next = desk.ended_after(alloc, u64::from(ended.0.get()), begin, until)?;
    }
    // No table is that long.
    Err(DayTableFault::Write)
}

/// The next request of a span, whose number is later than this one.
fn next_request<S: Alter>(
    alloc: Global,
    desk: &mut Desk<S>,
    number: u64,
    begin: Moment,
    until: Moment,
) -> Result<Option<RequestInfo>, DeskFault>
    ensures query { Queries S.Store desk.old desk.new result
        (λ s x. x ≡ option_map request_texts (request_after s number begin until)) }
    ensures takes_none { result ≢ Err DeskFault.NoMemory }
    ensures later { IfOk result (λ x. IfSome x (λ request. number < request.number)) }
{
    let Some(request) = desk.request_after(alloc, number, begin, until)? else {
        return Ok(None);
    };
    if request.number > number {
        return Ok(Some(request));
    }
    // No desk answers so; by this test it is plain that a walk ends.
    Ok(None)
}

/// The number of a request, behind which the walk goes on.
fn number_of(request: &RequestInfo) -> u64
    ensures { result ≡ request.now.number }
{
    request.number
}

/// Writes the table of the accepted requests of a span.
pub(crate) fn write_requests<S: Alter, W: Write>(
    alloc: Global,
    desk: &mut Desk<S>,
    begin: Moment,
    until: Moment,
    out: &mut W,
) -> Result<(), DayTableFault>
    ensures { WritesTable S.Store desk.old desk.new (W.contents out.old) (W.contents out.new) result
        (λ s. span_text s Requests begin until) }
{
    let mut number = 0;
    let mut next = next_request(alloc, desk, number, begin, until)?;
    write_header(alloc, DayTable::Requests, out)?;
    'requests: loop {
        let Some(request) = next else {
            return Ok(());
        };
        write_request(alloc, &request, out)?;
        number = number_of(&request);
        next = next_request(alloc, desk, number, begin, until)?;
    }
}
