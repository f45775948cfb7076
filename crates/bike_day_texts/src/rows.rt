//! The header and the rows of a day's tables.

ghost use Rattle.std.specs.Prelude.{◌≡◌};
ghost use Rattle.bike_day_texts.specs.Rows.{header_line, kind_name, stop_text, entry_line, ended_line, request_line};
ghost use Rattle.bike_day_texts.specs.Ended.{info_row};
ghost use Rattle.bike_day_texts.specs.Writing.{WritesLine};

use crate::fault::LineFault;
use crate::line::write_line;
use crate::table::DayTable;
use bike_fields::{Ident, RentalNumber};
use bike_ledger::{Entry, EntryKind};
use bike_operator::{ClosingInfo, RentalInfo, RequestInfo};
use itoa::Buffer;
use std::alloc::Global;
use std::io::Write;

/// Writes the names of a table's columns as one line. `NoMemory` comes before anything is written, and after `Write` a
/// front of the line is, and not all.
pub fn write_header<W: Write>(alloc: Global, table: DayTable, out: &mut W) -> Result<(), LineFault>
    ensures { WritesLine (W.contents out.old) (W.contents out.new) (header_line table) result }
{
    match table {
        DayTable::Entries => write_line(
            alloc,
            &[
                "number".as_bytes(),
                "kind".as_bytes(),
                "rider".as_bytes(),
                "rental".as_bytes(),
                "amount".as_bytes(),
                "at".as_bytes(),
            ],
            out,
        ),
        DayTable::Rentals => write_line(
            alloc,
            &[
                "number".as_bytes(),
                "rider".as_bytes(),
                "bike".as_bytes(),
                "plan".as_bytes(),
                "from".as_bytes(),
                "start".as_bytes(),
                "to".as_bytes(),
                "end".as_bytes(),
                "fare".as_bytes(),
            ],
            out,
        ),
        DayTable::Requests => write_line(
            alloc,
            &[
                "number".as_bytes(),
                "moment".as_bytes(),
                "caller".as_bytes(),
                "key".as_bytes(),
                "command".as_bytes(),
                "reply".as_bytes(),
            ],
            out,
        ),
    }
}

/// What an entry books, as its row shows it.
fn name_of(kind: EntryKind) -> &'static str
    ensures { result.now ≡ kind_name kind }
{
    match kind {
        EntryKind::TopUp => "topup",
        EntryKind::Fare => "fare",
        EntryKind::Refund => "refund",
        EntryKind::Withdrawal => "withdrawal",
        EntryKind::Charge => "charge",
        EntryKind::Credit => "credit",
    }
}

/// Writes an entry's row as one line; the rental is 0 where it is of none. Faults come as those of `write_header` do.
pub fn write_entry<W: Write>(alloc: Global, entry: &Entry, out: &mut W) -> Result<(), LineFault>
    ensures { WritesLine (W.contents out.old) (W.contents out.new) (entry_line entry.now) result }
{
    let mut number = Buffer::new();
    let mut rider = Buffer::new();
    let mut rental = Buffer::new();
    let amount = entry.amount().text();
    let at = entry.at().text();
    let fields = [
        number.format(entry.number().get()).as_bytes(),
        name_of(entry.kind()).as_bytes(),
        rider.format(entry.rider().get()).as_bytes(),
        rental.format(entry.rental().get()).as_bytes(),
        amount.as_str().as_bytes(),
        at.as_str().as_bytes(),
    ];
    write_line(alloc, &fields, out)
}

/// The station at which a rental ended, as its row shows it.
fn stop_of(to_station: &Option<Ident>) -> &str
    ensures { result.now ≡ stop_text to_station.now }
{
    match to_station {
        Some(station) => station.as_str(),
        None => "*",
    }
}

/// Writes the row of a rental of this number that was closed so as one line; where the bicycle was recovered, the
/// station is `*`. Faults come as those of `write_header` do.
pub fn write_ended<W: Write>(
    alloc: Global,
    number: RentalNumber,
    rental: &RentalInfo,
    closing: &ClosingInfo,
    out: &mut W,
) -> Result<(), LineFault>
    ensures { WritesLine (W.contents out.old) (W.contents out.new)
        (ended_line (info_row number rental.now closing.now)) result }
{
    let mut digits = Buffer::new();
    let mut rider = Buffer::new();
    let mut bike = Buffer::new();
    let start = rental.start.text();
    let finish = closing.finish.text();
    let fare = closing.fare.text();
    let fields = [
        digits.format(number.get()).as_bytes(),
        rider.format(rental.rider.get()).as_bytes(),
        bike.format(rental.bike.get()).as_bytes(),
        rental.plan.as_str().as_bytes(),
        rental.from_station.as_str().as_bytes(),
        start.as_str().as_bytes(),
        stop_of(&closing.to_station).as_bytes(),
        finish.as_str().as_bytes(),
        fare.as_str().as_bytes(),
    ];
    write_line(alloc, &fields, out)
}

/// Writes an accepted request's row as one line. Faults come as those of `write_header` do.
pub fn write_request<W: Write>(
    alloc: Global,
    request: &RequestInfo,
    out: &mut W,
) -> Result<(), LineFault>
    ensures { WritesLine (W.contents out.old) (W.contents out.new) (request_line request.now) result }
{
    let mut number = Buffer::new();
    let moment = request.moment.text();
    let fields = [
        number.format(request.number).as_bytes(),
        moment.as_str().as_bytes(),
        request.caller.as_bytes(),
        request.key.as_bytes(),
        request.command.as_bytes(),
        request.reply.as_bytes(),
    ];
    write_line(alloc, &fields, out)
}
