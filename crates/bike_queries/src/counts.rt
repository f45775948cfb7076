//! The counts of a station, by the numbers that its row keeps.

ghost use Rattle.std.specs.Prelude.{◌≡◌, ◌<◌, ◌≤◌, [], true, length, IfOk, IfSome, IsSome, OnOk};
ghost use Rattle.bike_schema.specs.Answers.{Answers};
ghost use Rattle.bike_book.specs.ByType.{counts_of};
ghost use Rattle.bike_queries.specs.StationCounts.{Adds, AreCountsAt, AreCountsTold};
ghost use Rattle.bike_queries.specs.StationCounts.{AreAbove, AreBelow, AreRising, TellsOf};

use crate::types::find_type_ids;
use bike_book::{CountedType, TypeCounts, counts_by_type, counts_of};
use bike_fields::Ident;
use bike_fleet_reads::{DockNumbers, find_dock_numbers};
use bike_operator::{Counts, TypeCount};
use bike_schema::StatementFault;
use sqlite::{Alter, Connection};
use std::alloc::Global;
use std::cmp::Ordering;

/// The counts of the type, where it is the first of these.
fn counts_here(rest: &[CountedType], type_id: &Ident) -> Option<TypeCounts>
    ensures told { IfSome result (TellsOf rest.now type_id.now) }
    ensures some { IsSome result → 0 < length rest.now }
{
    let (first, _) = rest.split_first()?;
    if first.type_id.as_str() == type_id.as_str() {
        return Some(first.counts);
    }
    None
}

/// Whether the type comes behind all these, which are in byte order.
fn is_behind(front: &[CountedType], type_id: &Ident) -> bool
    ensures { result ≡ true → AreRising front.now → AreBelow type_id.now front.now }
{
    match front.split_last() {
        Some((last, _)) => matches!(last.type_id.as_str().cmp(type_id.as_str()), Ordering::Less),
        None => true,
    }
}

/// Whether the type comes before all these, which are in byte order.
fn is_before(rest: &[CountedType], type_id: &Ident) -> bool
    ensures { result ≡ true → AreRising rest.now → AreAbove type_id.now rest.now }
{
    match rest.split_first() {
        Some((first, _)) => matches!(type_id.as_str().cmp(first.type_id.as_str()), Ordering::Less),
        None => true,
    }
}

/// The counts of the type, looked for at a place of a list in byte order, and the place behind it: a walk along types
/// in that order, too, finds each there, or finds that it would stand there. Any other type is looked for from the
/// first on.
fn counts_from(told: &[CountedType], place: usize, type_id: &Ident) -> (TypeCounts, usize)
    requires { place ≤ length told.now }
    ensures counts { AreRising told.now → result.0 ≡ counts_of type_id.now told.now }
    ensures place { result.1 ≤ length told.now }
{
    let (front, rest) = told.split_at(place);
    if let Some(counts) = counts_here(rest, type_id) {
        return (counts, place + 1);
    }
    if is_behind(front, type_id) && is_before(rest, type_id) {
        let none = TypeCounts {
            available: 0,
            disabled: 0,
        };
        return (none, place);
    }
    (counts_of(told, type_id.as_str()), place)
}

/// Counts one more type. `StoreFailed` where a sum doesn't fit, which no station comes near.
fn add_type(counts: &mut Counts, type_id: Ident, counted: TypeCounts) -> Result<(), StatementFault>
    ensures { OnOk result (Adds counts.old type_id counted counts.new) }
{
    let available = counts.available.checked_add(counted.available);
    let disabled = counts.disabled.checked_add(counted.disabled);
    let (Some(available), Some(disabled)) = (available, disabled) else {
        return Err(StatementFault::StoreFailed);
    };
    let one = TypeCount {
        type_id,
        count: counted.available,
    };
    if counts.by_type.push(one).is_err() {
        return Err(StatementFault::NoMemory);
    }
    counts.available = available;
    counts.disabled = disabled;
    Ok(())
}

/// The counts of a station whose docks have these numbers, by what its row tells of its bicycles by type, in byte
/// order: of those of the types with these identifiers. The list of types is put together in the room.
pub(crate) fn count_types(
    alloc: Global,
    type_ids: &[Ident],
    told: &[CountedType],
    docks: DockNumbers,
    room: Vec<TypeCount>,
) -> Result<Counts, StatementFault>
    requires { room.items ≡ [] }
    ensures { IfOk result (λ c. AreRising told.now → AreCountsTold told.now docks type_ids.now c) }
{
    let mut counts = Counts {
        available: 0,
        by_type: room,
        disabled: 0,
        docks_available: docks.free.get(),
        docks_disabled: docks.broken.get(),
    };
    let mut place = 0;
    for type_id in type_ids {
        let (counted, next) = counts_from(told, place, type_id);
        let copy = type_id.try_clone(alloc)?;
        add_type(&mut counts, copy, counted)?;
        place = next;
    }
    Ok(counts)
}

/// The counts of the station, if it is there, by two statements: a look-up of the station and a walk over the types.
/// The list of types is put together in the room, which best has a place for each of the `MOST_TYPES` types. `NoMemory`
/// where an identifier finds none; every other fault is the database's.
pub fn find_station_counts<S: Alter>(
    alloc: Global,
    conn: &mut Connection<S>,
    station: &Ident,
    room: Vec<TypeCount>,
) -> Result<Option<Counts>, StatementFault>
    requires { room.items ≡ [] }
    ensures { Answers S.Store conn.old conn.new result (λ s m x. AreCountsAt s station.now x) }
{
    counts_by_type();
    let Some(numbers) = find_dock_numbers(alloc, conn, station)? else {
        return Ok(None);
    };
    let type_ids = find_type_ids(alloc, conn)?;
    let told = numbers.by_type.as_slice();
    let counts = count_types(alloc, type_ids.as_slice(), told, numbers.docks, room)?;
    Ok(Some(counts))
}
