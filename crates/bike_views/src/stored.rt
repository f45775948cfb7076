//! What the tables store of the station whose numbers an accepted command touches.

ghost use Rattle.std.specs.Prelude.{◌≡◌, IfOk, IfSome, IsTrue, Some};
ghost use Rattle.std.specs.FinMap as map;
ghost use Rattle.bike_commands.specs.declared.command.Command.{Command};
ghost use Rattle.bike_operator.specs.Operator.{Operator, dock_key};
ghost use Rattle.bike_book.specs.ByType.{counts_of};
ghost use Rattle.bike_book.specs.Stored.{Listed};
ghost use Rattle.bike_fleet_reads.specs.Fleet.{AreNumbersAt};
ghost use Rattle.bike_booking.specs.Stored.{IsMovedStored};
ghost use Rattle.bike_views.specs.Open.{AnswersOpen};
ghost use Rattle.bike_views.specs.ViewAndDocks.{docks_for, told_of};
ghost use Rattle.bike_views.specs.StoredParts.{AreDocks, counts_read, dock_read};

use crate::StationDocks;
use bike_accepted::{DockAt, DockOccupant, Movement};
use bike_book::{CountedType, counts_by_type, counts_of};
use bike_booking::{Stored, StoredCounts, StoredDock};
use bike_fields::{DockTotal, Ident};
use bike_fleet_reads::{DockNumbers, StationNumbers, find_dock_numbers, find_mark, no_docks};
use bike_schema::StatementFault;
use sqlite::{Alter, Connection};
use std::alloc::Global;

/// The numbers of a station's docks.
fn stored_dock(docks: DockNumbers, is_listed: bool) -> StoredDock
    ensures { result ≡ dock_read docks is_listed }
{
    StoredDock {
        free: docks.free,
        broken: docks.broken,
        is_listed,
    }
}

/// The counts of a type at a station, of which these are the bicycles by type. `StoreFailed` where they are more than a
/// station has docks.
fn counts_at(by_type: &[CountedType], type_id: &Ident) -> Result<StoredCounts, StatementFault>
    ensures { IfOk result (λ counts. counts ≡ counts_read (counts_of type_id.now by_type.now)) }
{
    let counts = counts_of(by_type, type_id.as_str());
    let available = DockTotal::new(counts.available).ok_or(StatementFault::StoreFailed)?;
    let disabled = DockTotal::new(counts.disabled).ok_or(StatementFault::StoreFailed)?;
    Ok(StoredCounts {
        available,
        disabled,
    })
}

/// The counts of no type.
fn no_counts() -> StoredCounts {
    StoredCounts {
        available: no_docks(),
        disabled: no_docks(),
    }
}

/// The counts of the type of the bicycle in a dock, where there is one. It fails as `counts_at` does.
fn held_counts(
    by_type: &[CountedType],
    held: &Option<DockOccupant<'_>>,
) -> Result<StoredCounts, StatementFault>
    ensures { IfOk result (λ counts. IfSome held.now
        (λ h. counts ≡ counts_read (counts_of h.type_id.now by_type.now))) }
{
    match held {
        None => Ok(no_counts()),
        Some(held) => counts_at(by_type, held.type_id),
    }
}

/// Whether the docks are the station's.
fn is_station(docks: &StationDocks, station: &Ident) -> bool
    ensures { IsTrue result → docks.now.station ≡ station.now }
{
    docks.station.as_str() == station.as_str()
}

/// Whether a dock has a row, where that was read with the view.
fn listing_of(docks: &Option<StationDocks>, at: &DockAt<'_>) -> Option<bool>
    ensures { IfSome result (λ listed. (s : Operator) (m : Listed) → AreDocks s m docks.now
        → listed ≡ map.contains_key m.docks (dock_key at.now.station.now at.now.dock)) }
{
    let Some(docks) = docks else {
        return None;
    };
    let Some(listing) = docks.listing else {
        return None;
    };
    if listing.dock == at.dock && is_station(docks, at.station) {
        Some(listing.is_listed)
    } else {
        None
    }
}

/// The numbers of a station, as they were read with the view, or by one more read.
fn find_numbers_any<S: Alter>(
    alloc: Global,
    conn: &mut Connection<S>,
    docks: Option<StationDocks>,
    station: &Ident,
) -> Result<Option<StationNumbers>, StatementFault>
    ensures { AnswersOpen S.Store conn.old conn.new result
        (λ s m numbers. AreDocks s m docks → AreNumbersAt s station.now numbers) }
{
    if let Some(docks) = docks {
        if is_station(&docks, station) {
            return Ok(docks.numbers);
        }
    }
    find_dock_numbers(alloc, conn, station)
}

/// The numbers of a station, as they were read with the view, or by one more read. `StoreFailed` also where there is no
/// such station, as there is where a command is accepted that touches its docks.
fn find_numbers<S: Alter>(
    alloc: Global,
    conn: &mut Connection<S>,
    docks: Option<StationDocks>,
    station: &Ident,
) -> Result<StationNumbers, StatementFault>
    ensures { AnswersOpen S.Store conn.old conn.new result
        (λ s m numbers. AreDocks s m docks → AreNumbersAt s station.now (Some numbers)) }
{
    match find_numbers_any(alloc, conn, docks, station)? {
        Some(numbers) => Ok(numbers),
        None => Err(StatementFault::StoreFailed),
    }
}

/// Whether a dock has a row, as it was read with the view, or by one more read.
fn find_listing<S: Alter>(
    conn: &mut Connection<S>,
    docks: &Option<StationDocks>,
    at: &DockAt<'_>,
) -> Result<bool, StatementFault>
    ensures { AnswersOpen S.Store conn.old conn.new result (λ s m listed. AreDocks s m docks.now
        → listed ≡ map.contains_key m.docks (dock_key at.now.station.now at.now.dock)) }
{
    if let Some(is_listed) = listing_of(docks, at) {
        return Ok(is_listed);
    }
    let mark = find_mark(conn, at.station, at.dock)?;
    Ok(mark.is_some())
}

/// What is stored where no dock is touched.
fn untouched(alloc: Global) -> Stored {
    Stored {
        dock: StoredDock {
            free: no_docks(),
            broken: no_docks(),
            is_listed: false,
        },
        by_type: Vec::new(alloc),
        counts: no_counts(),
    }
}

/// What is stored of a station's docks and bicycles, and of the type that is touched.
fn stored_at(numbers: StationNumbers, is_listed: bool, counts: StoredCounts) -> Stored
    ensures { result ≡ record {
      dock = dock_read numbers.docks is_listed;
      by_type = numbers.by_type;
      counts = counts;
    } }
{
    Stored {
        dock: stored_dock(numbers.docks, is_listed),
        by_type: numbers.by_type,
        counts,
    }
}

/// What is stored of what is put or marked. Where that touches no dock, nothing is read, and the numbers are 0.
fn find_moved<S: Alter>(
    alloc: Global,
    conn: &mut Connection<S>,
    docks: Option<StationDocks>,
    moved: &Movement<'_>,
) -> Result<Stored, StatementFault>
    ensures { AnswersOpen S.Store conn.old conn.new result
        (λ s m stored. AreDocks s m docks → IsMovedStored s m stored moved.now) }
{
    counts_by_type();
    match moved {
        Movement::Away { .. } => Ok(untouched(alloc)),
        Movement::AtDock { at, type_id, .. } => {
            let numbers = find_numbers(alloc, conn, docks, at.station)?;
            let counts = counts_at(numbers.by_type.as_slice(), type_id)?;
            Ok(stored_at(numbers, false, counts))
        }
        Movement::AddDocks { station, .. } => {
            let numbers = find_numbers(alloc, conn, docks, station)?;
            Ok(stored_at(numbers, false, no_counts()))
        }
        Movement::Marked { at, held, .. } => {
            let is_listed = find_listing(conn, &docks, at)?;
            let numbers = find_numbers(alloc, conn, docks, at.station)?;
            let counts = held_counts(numbers.by_type.as_slice(), held)?;
            Ok(stored_at(numbers, is_listed, counts))
        }
    }
}

/// What the tables store of what an accepted command puts or marks: the numbers of the dock's station, its bicycles by
/// type, the counts there of the bicycle's type, and of a dock that is marked whether it has a row. `docks` came with
/// the view of a command: what it tells of the dock isn't read again, and its list of the bicycles by type goes into
/// what is answered. Where no dock is touched, nothing is read.
///
/// `NoMemory` comes where memory is refused, and `StoreFailed` where the engine fails otherwise, a row holds what the
/// product never writes, or the station isn't there. In each case the tables are as before the call, or as before the
/// transaction.
pub fn find_stored<S: Alter>(
    alloc: Global,
    conn: &mut Connection<S>,
    docks: Option<StationDocks>,
    moved: &Option<Movement<'_>>,
) -> Result<Stored, StatementFault>
    ensures { AnswersOpen S.Store conn.old conn.new result (λ s m stored. (c : Command)
        → told_of docks ≡ docks_for s m c → IfSome moved.now (IsMovedStored s m stored)) }
{
    match moved {
        None => Ok(untouched(alloc)),
        Some(moved) => find_moved(alloc, conn, docks, moved),
    }
}
