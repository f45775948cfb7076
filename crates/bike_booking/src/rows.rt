//! The row changes of an accepted command.

ghost use Rattle.std.specs.Prelude.{◌≡◌, ◌+◌, ◌++◌, ◌≤◌, length, Some, None};
ghost use Rattle.bike_book.specs.declared.row_change.RowChange.TheVariants as row;
ghost use Rattle.bike_book.specs.ChangeLaws.{segment_writes, change_writes};
ghost use Rattle.bike_book.specs.Writes.{write_of, writes_of};
ghost use Rattle.bike_booking.specs.Put.{bikes_by};
ghost use Rattle.bike_booking.specs.Room.{HasRoom, TakesRows};
ghost use Rattle.bike_booking.specs.Stored.{counts_in};
ghost use Rattle.bike_booking.specs.Writes.{dock_row, put_write, mark_write, moved_writes, entry_writes, close_rows};
ghost use Rattle.bike_booking.specs.Writes.{writes_of_accepted, AreAdded};

use crate::shares::{BikeShares, moved_by, one};
use crate::stored::{Stored, StoredCounts, StoredDock};
use crate::texts::KeptTexts;
use arrayvec::ArrayVec;
use bike_accepted::{Accepted, BikeStatus, BookedEntry, Change, DockAt, DockOccupant, Movement};
use bike_book::{RequestCount, RowChange, TypeCounts};
use bike_fields::{DockCount, Ident, Segment};
use bike_fixed::Moment;

/// A request makes at most this many row changes: 2 of what is put or marked, a record and 8 segments of a plan, 3 of
/// an entry and 1 of the close.
pub const MOST_ROW_CHANGES: usize = 15;

/// The row changes of a request. They take no memory.
pub type Rows<'a> = ArrayVec<RowChange<'a>, MOST_ROW_CHANGES>;

/// Adds row changes, for which there is room.
fn add<'a>(rows: &mut Rows<'a>, more: &[RowChange<'a>])
    requires { HasRoom (length more.now) rows.old }
    ensures items { rows.new.items ≡ rows.old.items ++ more.now }
    ensures room { TakesRows (length more.now) rows.old rows.new }
{
    if !rows.try_extend_from_slice(more).is_ok() {
        unreachable!()
    }
}

/// The counts of a type at a station when a bicycle that added the one shares adds the others.
fn counts_by(stored: &StoredCounts, less: BikeShares, more: BikeShares) -> TypeCounts
    ensures { result ≡ bikes_by (record { less = less; more = more }) (counts_in stored.now) }
{
    TypeCounts {
        available: moved_by(stored.available.get(), less.available(), more.available()),
        disabled: moved_by(stored.disabled.get(), less.disabled(), more.disabled()),
    }
}

/// A bicycle's state and place.
fn bike_row<'a>(bike: u32, becomes: &BikeStatus<'a>) -> RowChange<'a>
    ensures { result ≡ row.SetBike bike becomes.now.state becomes.now.place }
{
    RowChange::SetBike {
        bike,
        state: becomes.state,
        place: becomes.place,
    }
}

/// The docks of a station that has so many and gets more, which are available.
fn dock_count_row<'a>(
    station: &'a Ident,
    was: &DockCount,
    count: &DockCount,
    stored: &StoredDock,
) -> RowChange<'a>
    ensures { result ≡ row.SetDockCount station.entry (was.now + count.now) (stored.now.free + count.now) }
{
    RowChange::SetDockCount {
        station,
        docks: was.get() + count.get(),
        free: stored.free.get() + count.get(),
    }
}

/// The mark of a dock.
fn dock_row<'a>(is_listed: bool, at: &DockAt<'a>, is_broken: bool) -> RowChange<'a>
    ensures { result ≡ dock_row is_listed at.now is_broken }
{
    let station = at.station;
    let dock = at.dock;
    if is_listed {
        RowChange::SetDock {
            station,
            dock,
            is_broken,
        }
    } else {
        RowChange::AddDock {
            station,
            dock,
            is_broken,
        }
    }
}

/// The station of a dock into, from or in which a bicycle is put: the numbers of its docks, its bicycles by type,
/// and its report.
fn put_row<'a>(
    at: &DockAt<'a>,
    type_id: &'a Ident,
    was: &BikeStatus<'a>,
    becomes: &BikeStatus<'a>,
    stored: &'a Stored,
    now: Moment,
) -> RowChange<'a>
    ensures { write_of result ≡ put_write now stored.now at.now type_id.entry was.now becomes.now }
{
    let dock = &stored.dock;
    let less = BikeShares::of(at.is_broken, was);
    let more = BikeShares::of(at.is_broken, becomes);
    RowChange::SetBikesReported {
        station: at.station,
        free: moved_by(dock.free.get(), more.occupied(), less.occupied()),
        broken: dock.broken.get(),
        by_type: stored.by_type.as_slice(),
        type_id,
        counts: counts_by(&stored.counts, less, more),
        reported: now,
    }
}

/// The station of an empty dock that is marked: the numbers of its docks, and its report.
fn empty_mark_row<'a>(
    at: &DockAt<'a>,
    is_broken: bool,
    stored: &Stored,
    now: Moment,
) -> RowChange<'a>
    ensures { write_of result ≡ mark_write now stored.now at.now None is_broken }
{
    let dock = &stored.dock;
    let was = one(at.is_broken);
    let is = one(is_broken);
    RowChange::SetDocksReported {
        station: at.station,
        free: moved_by(dock.free.get(), is, was),
        broken: moved_by(dock.broken.get(), was, is),
        reported: now,
    }
}

/// The station of a dock that is marked with a bicycle in it: the numbers of its docks, its bicycles by type, and its
/// report.
fn held_mark_row<'a>(
    at: &DockAt<'a>,
    held: &DockOccupant<'a>,
    is_broken: bool,
    stored: &'a Stored,
    now: Moment,
) -> RowChange<'a>
    ensures { write_of result ≡ mark_write now stored.now at.now (Some held.now) is_broken }
{
    let dock = &stored.dock;
    let less = BikeShares::in_dock(at.is_broken, held.state);
    let more = BikeShares::in_dock(is_broken, held.state);
    RowChange::SetBikesReported {
        station: at.station,
        free: dock.free.get(),
        broken: moved_by(dock.broken.get(), one(at.is_broken), one(is_broken)),
        by_type: stored.by_type.as_slice(),
        type_id: held.type_id,
        counts: counts_by(&stored.counts, less, more),
        reported: now,
    }
}

/// Adds the row changes of what is put or marked.
fn push_moved<'a>(rows: &mut Rows<'a>, moved: &Movement<'a>, stored: &'a Stored, now: Moment)
    requires { HasRoom 2 rows.old }
    ensures added { AreAdded (moved_writes now stored.now moved.now) rows.old.items rows.new.items }
    ensures room { TakesRows 2 rows.old rows.new }
{
    match moved {
        Movement::Away { bike, becomes, .. } => add(rows, &[bike_row(*bike, becomes)]),
        Movement::AtDock {
            at,
            bike,
            type_id,
            was,
            becomes,
        } => {
            let numbers = put_row(at, type_id, was, becomes, stored, now);
            add(rows, &[bike_row(*bike, becomes), numbers]);
        }
        Movement::AddDocks {
            station,
            was,
            count,
        } => add(rows, &[dock_count_row(station, was, count, &stored.dock)]),
        Movement::Marked {
            at,
            held,
            is_broken,
        } => {
            let mark = dock_row(stored.dock.is_listed, at, *is_broken);
            let numbers = match held {
                None => empty_mark_row(at, *is_broken, stored, now),
                Some(held) => held_mark_row(at, held, *is_broken, stored, now),
            };
            add(rows, &[mark, numbers]);
        }
    }
}

/// Adds the segments of a plan, a row each, from 1 on.
fn push_segments<'a>(rows: &mut Rows<'a>, plan: &'a Ident, segments: &'a [Segment])
    requires few { length segments.now ≤ 8 }
    requires room { HasRoom 8 rows.old }
    ensures added { AreAdded (segment_writes plan.now 1 segments.now) rows.old.items rows.new.items }
    ensures room { TakesRows 8 rows.old rows.new }
{
    let mut seq = 1u32;
    for segment in segments {
        add(rows, &[RowChange::AddSegment { plan, seq, segment }]);
        seq += 1;
    }
}

/// Adds the row change of one record, and those of a plan's segments beside it.
fn push_change<'a>(rows: &mut Rows<'a>, change: &'a Change<'a>)
    requires { HasRoom 9 rows.old }
    ensures added { AreAdded (change_writes change.now) rows.old.items rows.new.items }
    ensures room { TakesRows 9 rows.old rows.new }
{
    add(rows, &[RowChange::Record(change)]);
    if let Change::AddPlan(plan) = change {
        push_segments(rows, plan.plan_id(), plan.segments());
    }
}

/// Adds the row changes of an entry.
fn push_entry<'a>(rows: &mut Rows<'a>, booked: &'a BookedEntry)
    requires { HasRoom 3 rows.old }
    ensures added { AreAdded (entry_writes booked.now) rows.old.items rows.new.items }
    ensures room { TakesRows 3 rows.old rows.new }
{
    let entry = &booked.entry;
    let balance_row = RowChange::SetBalance {
        rider: entry.rider().get(),
        balance: booked.balance,
    };
    add(rows, &[RowChange::AddEntry(entry), balance_row]);
    if let Some(refunded) = booked.refunded {
        let rental = entry.rental().get();
        add(rows, &[RowChange::SetRefunded { rental, refunded }]);
    }
}

/// Adds the request's row of the history.
fn push_close<'a>(rows: &mut Rows<'a>, now: Moment, number: RequestCount, texts: &KeptTexts<'a>)
    requires { HasRoom 1 rows.old }
    ensures { rows.new.items ≡ rows.old.items ++ close_rows now number texts.now }
{
    let request_row = RowChange::AddRequest {
        number,
        moment: now,
        caller: texts.caller,
        key: texts.key,
        command: texts.command,
        reply: texts.reply,
    };
    add(rows, &[request_row]);
}

/// The row changes of an accepted command, whose request gets this number in the history. They borrow what is stored of
/// the station's bicycles.
pub fn rows_of<'a>(
    accepted: &'a Accepted<'a>,
    stored: &'a Stored,
    now: Moment,
    number: RequestCount,
    texts: &KeptTexts<'a>,
) -> Rows<'a>
    ensures { writes_of result.items ≡ writes_of_accepted now stored.now number texts.now accepted.now }
{
    let mut rows = ArrayVec::new();
    if let Some(moved) = &accepted.moved {
        push_moved(&mut rows, moved, stored, now);
    }
    if let Some(change) = &accepted.change {
        push_change(&mut rows, change);
    }
    if let Some(booked) = &accepted.entry {
        push_entry(&mut rows, booked);
    }
    push_close(&mut rows, now, number, texts);
    rows
}
