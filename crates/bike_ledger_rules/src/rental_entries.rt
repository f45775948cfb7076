//! What the entries of rentals come to, by the rental's place behind those that were archived.

ghost use Rattle.std.specs.Prelude.{◌≡◌, ◌+◌, IfOk, replicate, pos};
ghost use Rattle.bike_sql.specs.Calls.{ReadsWhere};
ghost use Rattle.bike_schema.specs.Tables.{IsOurs, tables_of};
ghost use Rattle.bike_readings.specs.Views.{rental_of};
ghost use Rattle.bike_ledger_rules.specs.Rentals.{is_booked, books_test, fares_held, refunds_held, with_line, AreSums};

use crate::open_rentals::count_rentals;
use crate::sums::NumberedSums;
use bike_judges::{LineFold, Query, find_archived, fold_lines};
use bike_ledger::EntryKind;
use bike_readings::{Part, StoredRental, read_entry, read_rental};
use bike_schema::StatementFault;
use sqlite::{Alter, Connection, Row};
use std::alloc::Global;

/// What the entries of each rental come to, by its place behind those that were archived, from 1. What belongs to an
/// archived rental or to none stands in place 0.
#[derive(Debug, Drop)]
pub(crate) struct RentalEntries {
    /// How many rentals were archived.
    archived: u32,
    /// How many of them are fares.
    fares: NumberedSums,
    /// The sum of its refunds, in hundredths.
    refunds: NumberedSums,
}

impl LineFold for RentalEntries {
    ghost after = { with_line };

    fn add(&mut self, line: &Row) -> Result<(), StatementFault> {
        let Some(entry) = read_entry(Part::whole(line)) else {
            return Ok(());
        };
        let (fares, refunded) = match entry.kind {
            EntryKind::Fare => (1, 0),
            EntryKind::Refund => (0, entry.amount.hundredths()),
            EntryKind::TopUp | EntryKind::Withdrawal | EntryKind::Charge | EntryKind::Credit => {
                (0, 0)
            }
        };
        let place = entry.rental.saturating_sub(self.archived) as usize;
        self.fares.add(place, fares)?;
        self.refunds.add(place, refunded)
    }
}

/// Whether a rental has a fare where it is closed, and what its row has as refunded is what its entries give back, in
/// hundredths, and its fare at most.
fn is_booked(rental: &StoredRental<'_>, fares: i64, refunded: i64) -> bool
    ensures { result ≡ is_booked fares refunded (rental_of rental.now).1 (rental_of rental.now).2 }
{
    let (has_fare, most) = match &rental.closing {
        Some(closing) => (fares >= 1, closing.fare.hundredths()),
        None => (true, 0),
    };
    has_fare && rental.refunded.hundredths() == refunded && refunded <= most
}

impl RentalEntries {
    /// Whether it has the next number where so many stand before it, behind those that were archived, and is booked
    /// with the fares and refunds of its number.
    pub(crate) fn has_books(&self, before: u64, rental: &StoredRental<'_>) -> bool
        ensures { result ≡ books_test (fares_held self.now) (refunds_held self.now) (self.now.archived + before)
            (rental_of rental.now) }
    {
        let place = rental.rental.get().saturating_sub(self.archived);
        let is_next = u64::from(place).checked_sub(1) == Some(before);
        let fares = self.fares.at(place as usize);
        let refunded = self.refunds.at(place as usize);
        is_next && is_booked(rental, fares, refunded)
    }
}

/// Sums of no entries, for rentals whose places behind so many archived ones are below `next`. `NoMemory` where memory
/// is refused.
fn no_entries(alloc: Global, archived: u32, next: usize) -> Result<RentalEntries, StatementFault>
    ensures archived { IfOk result (λ sums. sums.archived ≡ archived) }
    ensures fares { IfOk result (λ sums. sums.fares ≡ replicate next (pos 0)) }
    ensures refunds { IfOk result (λ sums. sums.refunds ≡ replicate next (pos 0)) }
{
    let fares = NumberedSums::zeros(alloc, next)?;
    let refunds = NumberedSums::zeros(alloc, next)?;
    Ok(RentalEntries {
        archived,
        fares,
        refunds,
    })
}

/// What the entries of each rental come to, for each number that a good rental has. `NoMemory` where memory is refused,
/// `StoreFailed` where the database fails or a sum passes 64 bits.
pub(crate) fn sum_entries<S: Alter>(
    alloc: Global,
    conn: &mut Connection<S>,
) -> Result<RentalEntries, StatementFault>
    ensures { ReadsWhere S.Store IsOurs conn.old conn.new result (λ db sums. AreSums (tables_of db) sums) }
{
    let archived = find_archived(conn)?;
    let rentals = count_rentals(conn)?;
    let none = no_entries(alloc, archived.rentals, rentals.next)?;
    fold_lines(conn, Query::Entries, none)
}
