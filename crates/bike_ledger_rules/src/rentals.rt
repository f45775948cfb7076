//! Rentals, each by itself.

ghost use Rattle.std.specs.Prelude.{◌≡◌, Some};
ghost use Rattle.std.specs.FinSet as set;
ghost use Rattle.bike_book.specs.Tables.{Rentals};
ghost use Rattle.bike_sql.specs.Calls.{ReadsWhere};
ghost use Rattle.bike_schema.specs.Tables.{IsOurs};
ghost use Rattle.bike_judges.specs.Verdicts.{JudgesTable};
ghost use Rattle.bike_readings.specs.Views.{rental_of, closing_of};
ghost use Rattle.bike_ledger_rules.specs.Known.{held_in};
ghost use Rattle.bike_ledger_rules.specs.Lines.{first_column};
ghost use Rattle.bike_ledger_rules.specs.Rentals.{is_out, names_test, closes, ends_test, held_test};

use crate::columns::number_key;
use crate::known::{Names, read_names};
use crate::rental_entries::{RentalEntries, sum_entries};
use bike_fixed::Moment;
use bike_judges::{BadKey, LineJudge, LineTest, Query, find_now, judge_lines};
use bike_readings::{Part, StoredClosing, StoredRental, read_rental};
use bike_schema::StatementFault;
use sqlite::{Alter, Connection, Row};
use std::alloc::Global;

/// Whether the bicycle is there, and in the rental where that is open.
fn is_out(rental: &StoredRental<'_>, bike: Option<Option<u32>>) -> bool
    ensures { result ≡ is_out (rental_of rental.now).0 (rental_of rental.now).1 bike }
{
    match bike {
        Some(Some(number)) => rental.closing.is_some() || number == rental.rental.get(),
        Some(None) => rental.closing.is_some(),
        None => false,
    }
}

/// What a rental is tested with.
#[derive(Debug, Drop)]
struct RentalTest {
    /// The operator's moment.
    moment: Moment,
    /// What there is of what rentals name.
    names: Names,
    /// What the entries of each rental come to.
    sums: RentalEntries,
}

impl RentalTest {
    /// Whether its rider, plan, first station and bicycle are there, and the bicycle in it while it is open.
    fn has_names(&self, rental: &StoredRental<'_>) -> bool
        ensures { result ≡ names_test (held_in self.now.names) (rental_of rental.now) }
    {
        let has_rider = self.names.riders.at(rental.rider.get()).is_some();
        let has_plan = self.names.plans.contains(rental.plan);
        let has_station = self.names.stations.contains(rental.from_station);
        let bike = self.names.bikes.at(rental.bike.get());
        has_rider && has_plan && has_station && is_out(rental, bike)
    }

    /// Whether a closing is no earlier than the start, by the moment, and at a station that is there.
    fn closes(&self, start: Moment, closing: &StoredClosing<'_>) -> bool
        ensures { result ≡ closes (set.contains self.now.names.stations) self.now.moment start
            (Some (closing_of closing.now)) }
    {
        let is_stop = match closing.to_station {
            Some(station) => self.names.stations.contains(station),
            None => true,
        };
        start.seconds() <= closing.finish.seconds()
            && closing.finish.seconds() <= self.moment.seconds()
            && is_stop
    }

    /// Whether it began by the moment, and is open or was closed so.
    fn ends_well(&self, rental: &StoredRental<'_>) -> bool
        ensures { result ≡ ends_test (set.contains self.now.names.stations) self.now.moment (rental_of rental.now) }
    {
        let by_now = rental.start.seconds() <= self.moment.seconds();
        let is_closed_well = match &rental.closing {
            Some(closing) => self.closes(rental.start, closing),
            None => true,
        };
        by_now && is_closed_well
    }
}

impl LineTest for RentalTest {
    ghost test = { λ this. held_test this.moment this.names this.sums };

    ghost key = { λ this. first_column };

    fn is_good(&self, before: u64, line: &Row) -> Result<bool, StatementFault> {
        let Some(rental) = read_rental(Part::whole(line)) else {
            return Ok(false);
        };
        let has_names = self.has_names(&rental);
        let ends_well = self.ends_well(&rental);
        let has_books = self.sums.has_books(before, &rental);
        Ok(has_names && ends_well && has_books)
    }

    fn bad_key(&self, line: &Row) -> Result<BadKey, StatementFault> {
        number_key(line)
    }
}

/// The first bad key of `rentals`, where all tables before it are good: a row that spells no rental, one whose number
/// isn't the next, whose rider, bicycle, plan or station is missing, whose moments are wrong, whose bicycle is
/// elsewhere while it is open, that is closed with no fare, or whose refunds are not what is stored or over the fare.
/// It takes 16 bytes of memory for each rental, and holds the numbers of riders and bicycles and the identifiers of
/// plans and stations. `NoMemory` where memory is refused, `StoreFailed` where the database fails or a sum passes 64
/// bits.
pub fn judge_rentals<S: Alter>(
    alloc: Global,
    conn: &mut Connection<S>,
) -> Result<Option<BadKey>, StatementFault>
    ensures { ReadsWhere S.Store IsOurs conn.old conn.new result (JudgesTable Rentals) }
{
    let moment = find_now(conn)?;
    let names = read_names(alloc, conn)?;
    let sums = sum_entries(alloc, conn)?;
    let test = RentalTest {
        moment,
        names,
        sums,
    };
    judge_lines(conn, Query::Rentals, LineJudge::new(test))
}
