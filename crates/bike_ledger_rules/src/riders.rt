//! Riders, each with the rider's own plan, with the sums of their entries and the counts of their open rentals.

ghost use Rattle.std.specs.Prelude.{◌≡◌, fold};
ghost use Rattle.bike_book.specs.Tables.{Riders};
ghost use Rattle.bike_sql.specs.Calls.{ReadsWhere};
ghost use Rattle.bike_schema.specs.Tables.{IsOurs, tables_of};
ghost use Rattle.bike_readings.specs.ReadOff.{operator_of};
ghost use Rattle.bike_readings.specs.Views.{rider_of};
ghost use Rattle.bike_judges.specs.Verdicts.{JudgesTable};
ghost use Rattle.bike_ledger_rules.specs.Lines.{FindsFailing, first_column};
ghost use Rattle.bike_ledger_rules.specs.Riders.{with_number, with_entry, with_rental, with_credit, with_ride};
ghost use Rattle.bike_ledger_rules.specs.Riders.{rider_line, has_own_plan, is_balanced, account_holds};
ghost use Rattle.bike_ledger_rules.specs.Riders.{rider_test, AreBelow};

use crate::columns::number_key;
use crate::sums::NumberedSums;
use bike_book::columns::{plans, riders};
use bike_judges::{
    BadKey, LineFold, LineJudge, LineTest, Query, find_archived, fold_lines, is_sum_of, judge_lines,
};
use bike_ledger::EntryKind;
use bike_operator::MOST_RIDERS;
use bike_readings::{Part, StoredRider, read_entry, read_plan, read_rental, read_rider};
use bike_schema::StatementFault;
use sqlite::{Alter, Connection, Row};
use std::alloc::Global;

/// Where the row of a rider stands in its line.
pub(crate) const RIDER_AT: usize = 0;

/// Where that of the rider's own plan stands.
const PLAN_AT: usize = RIDER_AT + riders::COLUMNS;

/// How far the numbers of riders go.
#[derive(Debug, Drop)]
struct RiderNumbers {
    /// One more than the greatest so far.
    end: usize,
}

impl LineFold for RiderNumbers {
    ghost after = { with_number };

    fn add(&mut self, line: &Row) -> Result<(), StatementFault> {
        if let Some(row) = read_rider(Part::of(line, RIDER_AT, riders::COLUMNS)) {
            self.end = self.end.max(row.rider.get() as usize + 1);
        }
        Ok(())
    }
}

/// What the entries of each rider come to.
#[derive(Debug, Drop)]
struct Balances {
    /// By the rider's number, in hundredths.
    sums: NumberedSums,
}

impl LineFold for Balances {
    ghost after = { with_entry };

    fn add(&mut self, line: &Row) -> Result<(), StatementFault> {
        let Some(entry) = read_entry(Part::whole(line)) else {
            return Ok(());
        };
        let credit = match entry.kind {
            EntryKind::TopUp | EntryKind::Refund | EntryKind::Credit => {
                Some(entry.amount.hundredths())
            }
            EntryKind::Fare | EntryKind::Withdrawal | EntryKind::Charge => {
                entry.amount.hundredths().checked_neg()
            }
        };
        let credit = credit.ok_or(StatementFault::StoreFailed)?;
        self.sums.add(entry.rider.get() as usize, credit)
    }
}

/// How many rentals of each rider are open.
#[derive(Debug, Drop)]
struct OpenRides {
    /// By the rider's number.
    counts: NumberedSums,
}

impl LineFold for OpenRides {
    ghost after = { with_rental };

    fn add(&mut self, line: &Row) -> Result<(), StatementFault> {
        let Some(rental) = read_rental(Part::whole(line)) else {
            return Ok(());
        };
        let rides = if rental.closing.is_none() { 1 } else { 0 };
        self.counts.add(rental.rider.get() as usize, rides)
    }
}

/// Whether the rider's own plan is in the line, where the rider has one.
fn has_own_plan(rider: &StoredRider<'_>, line: &Row) -> bool
    ensures { result ≡ has_own_plan (rider_of rider.now).1.plan line.now }
{
    rider.plan.is_none() || read_plan(Part::of(line, PLAN_AT, plans::COLUMNS)).is_some()
}

/// What a rider's row is tested with.
#[derive(Debug, Drop)]
struct RiderTest {
    /// How many entries were archived.
    archived: u32,
    /// What the entries of each rider come to, in hundredths.
    balances: NumberedSums,
    /// How many rentals of each rider are open.
    rides: NumberedSums,
}

/// Whether what the rider has of so many archived entries can be, and with this sum of the others is the stored
/// balance.
fn is_balanced(rider: &StoredRider<'_>, archived: u32, sum: i64) -> bool
    ensures { result ≡ is_balanced archived sum (rider_of rider.now).1 (rider_of rider.now).2 }
{
    let balance = rider.before.hundredths().checked_add(sum);
    is_sum_of(archived, rider.before) && balance == Some(rider.balance.hundredths())
}

impl RiderTest {
    /// Whether the stored balance and so many open rentals are the rider's.
    fn holds(&self, rider: &StoredRider<'_>) -> bool
        ensures { result ≡ account_holds self.now.archived self.now.balances self.now.rides (rider_of rider.now) }
    {
        let number = rider.rider.get() as usize;
        is_balanced(rider, self.archived, self.balances.at(number)) && self.rides.at(number) <= 1
    }
}

impl LineTest for RiderTest {
    ghost test = { λ this. rider_test this.archived this.balances this.rides };

    ghost key = { λ this. first_column };

    fn is_good(&self, before: u64, line: &Row) -> Result<bool, StatementFault> {
        let Some(row) = read_rider(Part::of(line, RIDER_AT, riders::COLUMNS)) else {
            return Ok(false);
        };
        let has_room = before < u64::from(MOST_RIDERS);
        Ok(has_room && has_own_plan(&row, line) && self.holds(&row))
    }

    fn bad_key(&self, line: &Row) -> Result<BadKey, StatementFault> {
        number_key(line)
    }
}

/// One more than the greatest number of a rider, and 0 where there is none.
fn riders_end<S: Alter>(conn: &mut Connection<S>) -> Result<usize, StatementFault>
    ensures { ReadsWhere S.Store IsOurs conn.old conn.new result (λ db end. AreBelow end (tables_of db).riders) }
{
    let numbers = fold_lines(conn, Query::RiderRows, RiderNumbers { end: 0 })?;
    Ok(numbers.end)
}

/// The sums with what each entry adds to its rider's.
fn add_entries<S: Alter>(
    conn: &mut Connection<S>,
    sums: NumberedSums,
) -> Result<NumberedSums, StatementFault>
    ensures { ReadsWhere S.Store IsOurs conn.old conn.new result
        (λ db balances. balances ≡ fold with_credit sums (operator_of (tables_of db)).entries.items) }
{
    let added = fold_lines(conn, Query::Entries, Balances { sums })?;
    Ok(added.sums)
}

/// The counts with one more of its rider for each open rental.
fn count_rides<S: Alter>(
    conn: &mut Connection<S>,
    counts: NumberedSums,
) -> Result<NumberedSums, StatementFault>
    ensures { ReadsWhere S.Store IsOurs conn.old conn.new result
        (λ db rides. rides ≡ fold with_ride counts (operator_of (tables_of db)).rentals.items) }
{
    let counted = fold_lines(conn, Query::Rentals, OpenRides { counts })?;
    Ok(counted.counts)
}

/// The first rider that fails the test with these sums and counts, where so many entries were archived.
fn judge_rows<S: Alter>(
    conn: &mut Connection<S>,
    archived: u32,
    balances: NumberedSums,
    rides: NumberedSums,
) -> Result<Option<BadKey>, StatementFault>
    ensures { ReadsWhere S.Store IsOurs conn.old conn.new result
        (FindsFailing Riders (λ t before row. rider_test archived balances rides before (rider_line t row))) }
{
    let test = RiderTest {
        archived,
        balances,
        rides,
    };
    judge_lines(conn, Query::RiderRows, LineJudge::new(test))
}

/// The first bad key of `riders`, where all tables before it are good: a row that spells no rider, a rider beyond the
/// limit, one whose own plan is missing, who has more of the archived entries than so many can come to, whose stored
/// balance isn't that with the sum of the others, or who has two open rentals. `NoMemory` where memory is refused,
/// `StoreFailed` where the database fails or a sum passes 64 bits.
pub fn judge_riders<S: Alter>(
    alloc: Global,
    conn: &mut Connection<S>,
) -> Result<Option<BadKey>, StatementFault>
    ensures { ReadsWhere S.Store IsOurs conn.old conn.new result (JudgesTable Riders) }
{
    let archived = find_archived(conn)?;
    let end = riders_end(conn)?;
    let balances = add_entries(conn, NumberedSums::zeros(alloc, end)?)?;
    let rides = count_rides(conn, NumberedSums::zeros(alloc, end)?)?;
    judge_rows(conn, archived.entries, balances, rides)
}
