//! Entries, each with its rental.

ghost use Rattle.std.specs.Prelude.{◌≡◌, ◌-◌, Some};
ghost use Rattle.bike_book.specs.Tables.{Entries};
ghost use Rattle.bike_sql.specs.Calls.{ReadsWhere};
ghost use Rattle.bike_schema.specs.Tables.{IsOurs};
ghost use Rattle.bike_judges.specs.Verdicts.{JudgesTable};
ghost use Rattle.bike_readings.specs.Views.{rental_of, entry_of};
ghost use Rattle.bike_ledger_rules.specs.Known.{is_listed};
ghost use Rattle.bike_ledger_rules.specs.Entries.{is_of, is_of_rental, is_booked, line_rental, is_next, is_first};
ghost use Rattle.bike_ledger_rules.specs.Entries.{first_bad};

use crate::columns::number_key;
use crate::known::read_riders;
use crate::numbers::ByNumber;
use crate::open_rentals::count_rentals;
use crate::sums::NumberedSums;
use bike_book::columns::{entries, rentals};
use bike_fixed::Moment;
use bike_judges::{BadKey, Judge, Query, find_archived, find_now, judge_lines};
use bike_ledger::EntryKind;
use bike_operator::MOST_ENTRIES;
use bike_readings::{Part, StoredEntry, StoredRental, read_entry, read_rental};
use bike_schema::StatementFault;
use sqlite::{Alter, Connection, Row};
use std::alloc::Global;

/// Where the row of an entry stands in its line.
const ENTRY_AT: usize = 0;

/// Where that of its rental stands.
const RENTAL_AT: usize = ENTRY_AT + entries::COLUMNS;

/// Whether it is a closed rental of the entry's rider, at the amount where the entry is a fare.
fn is_of(entry: &StoredEntry, rental: &StoredRental<'_>) -> bool
    ensures { result ≡ is_of (entry_of entry.now).kind (entry_of entry.now) (Some (rental_of rental.now).1) }
{
    match &rental.closing {
        Some(closing) => {
            rental.rider == entry.rider
                && (entry.kind != EntryKind::Fare
                    || closing.fare.hundredths() == entry.amount.hundredths())
        }
        None => false,
    }
}

/// Whether its rental is one of so many that were archived, or such a rental, which is in the line.
fn is_of_rental(entry: &StoredEntry, archived: u32, line: &Row) -> bool
    ensures { result ≡ is_of_rental archived (entry_of entry.now).kind (entry_of entry.now) (line_rental line.now) }
{
    if entry.rental <= archived {
        return true;
    }
    match read_rental(Part::of(line, RENTAL_AT, rentals::COLUMNS)) {
        Some(rental) => is_of(entry, &rental),
        None => false,
    }
}

/// Whether it is neither a fare nor a refund, or of such a rental.
fn is_booked(entry: &StoredEntry, archived: u32, line: &Row) -> bool
    ensures { result ≡ is_booked archived (entry_of entry.now).kind (entry_of entry.now) (line_rental line.now) }
{
    match entry.kind {
        EntryKind::Fare | EntryKind::Refund => is_of_rental(entry, archived, line),
        EntryKind::TopUp | EntryKind::Withdrawal | EntryKind::Charge | EntryKind::Credit => true,
    }
}

/// Finds the first bad entry among lines of entries with their rentals.
#[derive(Debug, Drop)]
struct EntryJudge {
    /// The riders that are there.
    riders: ByNumber<()>,
    /// The operator's moment.
    moment: Moment,
    /// How many rentals are open.
    riding: u64,
    /// How many rentals were archived.
    archived: u32,
    /// How many fares each rental had so far, by its place behind those that were archived.
    fares: NumberedSums,
    /// How many entries there were so far, archived ones included.
    before: u64,
}

impl EntryJudge {
    /// Whether it has the next number and room, its rider is there, and it isn't after the operator's moment.
    fn is_next(&self, entry: &StoredEntry) -> bool
        ensures { result ≡ is_next (is_listed self.now.riders) self.now.moment self.now.riding self.now.before
            (entry_of entry.now) }
    {
        let is_next = u64::from(entry.number.get()).checked_sub(1) == Some(self.before);
        let has_room = match self.before.checked_add(self.riding) {
            Some(room) => room < u64::from(MOST_ENTRIES),
            None => false,
        };
        let has_rider = self.riders.at(entry.rider.get()).is_some();
        let by_now = entry.at.seconds() <= self.moment.seconds();
        is_next && has_room && has_rider && by_now
    }

    /// The place of its rental behind those that were archived.
    fn place(&self, entry: &StoredEntry) -> usize
        ensures { result ≡ (entry_of entry.now).rental - self.now.archived }
    {
        entry.rental.saturating_sub(self.archived) as usize
    }

    /// Whether its rental was archived or had no fare so far, where it is a fare.
    fn is_first(&self, entry: &StoredEntry) -> bool
        ensures { result ≡ is_first self.now.archived self.now.fares (entry_of entry.now) }
    {
        entry.kind != EntryKind::Fare
            || entry.rental <= self.archived
            || self.fares.at(self.place(entry)) == 0
    }
}

impl Judge for EntryJudge {
    ghost says = { λ j lines verdict. first_bad (is_listed j.riders) j.moment j.riding j.archived j.fares j.before
        lines ≡ verdict };

    fn take(&mut self, line: &Row) -> Result<Option<BadKey>, StatementFault> {
        let Some(entry) = read_entry(Part::of(line, ENTRY_AT, entries::COLUMNS)) else {
            return Ok(Some(number_key(line)?));
        };
        let is_next = self.is_next(&entry);
        let is_booked = is_booked(&entry, self.archived, line);
        let is_first = self.is_first(&entry);
        if !(is_next && is_booked && is_first) {
            return Ok(Some(number_key(line)?));
        }
        let is_fare = entry.kind == EntryKind::Fare;
        let place = self.place(&entry);
        self.fares.add(place, i64::from(is_fare))?;
        self.before = self
            .before
            .checked_add(1)
            .ok_or(StatementFault::StoreFailed)?;
        Ok(None)
    }

    fn end(self) -> Option<BadKey> {
        None
    }
}

/// The first bad key of `entries`, where all tables before it are good: a row that spells no entry, one whose number
/// isn't the next, that is beyond the limit with the open rentals, whose rider is missing, that is after the last
/// accepted request, or that is a fare or a refund of no closed rental of the rider, a fare of another amount, or a
/// second fare; of a rental that was archived nothing is asked. It takes 8 bytes of memory for each rental that is
/// there, and a byte or two for each number of a rider. `NoMemory` where memory is refused, `StoreFailed` where the
/// database fails or a count passes 64 bits.
pub fn judge_entries<S: Alter>(
    alloc: Global,
    conn: &mut Connection<S>,
) -> Result<Option<BadKey>, StatementFault>
    ensures { ReadsWhere S.Store IsOurs conn.old conn.new result (JudgesTable Entries) }
{
    let moment = find_now(conn)?;
    let archived = find_archived(conn)?;
    let rentals = count_rentals(conn)?;
    let riders = read_riders(alloc, conn)?;
    let fares = NumberedSums::zeros(alloc, rentals.next)?;
    let judge = EntryJudge {
        riders,
        moment,
        riding: rentals.riding,
        archived: archived.rentals,
        fares,
        before: u64::from(archived.entries),
    };
    judge_lines(conn, Query::EntryRentals, judge)
}
