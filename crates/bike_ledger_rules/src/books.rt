//! The row of books: what all numbers and all riders together tell of what was archived.

ghost use Rattle.std.specs.Prelude.{◌≡◌, ◌+◌, nat_le, length, IfOk};
ghost use Rattle.std.specs.List.{filter_map};
ghost use Rattle.bike_operator.specs.Sound.{befores};
ghost use Rattle.bike_book.specs.Tables.{Books};
ghost use Rattle.bike_sql.specs.Calls.{ReadsWhere};
ghost use Rattle.bike_schema.specs.Tables.{IsOurs, tables_of};
ghost use Rattle.bike_readings.specs.ReadOff.{archived_of, past_of, rider_in};
ghost use Rattle.bike_readings.specs.Views.{books_of};
ghost use Rattle.bike_judges.specs.Verdicts.{JudgesTable};
ghost use Rattle.bike_ledger_rules.specs.Lines.{first_column};
ghost use Rattle.bike_ledger_rules.specs.Books.{one_entry_more, with_before, with_meta, past_in, are_few};
ghost use Rattle.bike_ledger_rules.specs.Books.{are_numbers_few, adds_up, is_conserved, are_others, total_of};
ghost use Rattle.bike_ledger_rules.specs.Books.{AnswersWhereArchived, books_test};

use crate::columns::number_key;
use crate::open_rentals::count_rentals;
use crate::riders::RIDER_AT;
use bike_book::columns::riders;
use bike_judges::{
    BadKey, LineFold, LineJudge, LineTest, Query, find_archived, fold_lines, judge_lines,
};
use bike_operator::MOST_ENTRIES;
use bike_readings::{Part, StoredBooks, read_books, read_meta, read_rider};
use bike_schema::StatementFault;
use sqlite::{Alter, Connection, Row};

/// How many entries there are.
#[derive(Debug, Drop)]
struct EntryCount {
    count: u64,
}

impl LineFold for EntryCount {
    ghost after = { one_entry_more };

    fn add(&mut self, line: &Row) -> Result<(), StatementFault> {
        self.count = self
            .count
            .checked_add(1)
            .ok_or(StatementFault::StoreFailed)?;
        Ok(())
    }
}

/// What riders had of the archived entries together.
#[derive(Debug, Drop)]
struct BeforeSum {
    /// In hundredths: that of a city's riders may pass 64 bits.
    sum: i128,
}

impl LineFold for BeforeSum {
    ghost after = { with_before };

    fn add(&mut self, line: &Row) -> Result<(), StatementFault> {
        let Some(row) = read_rider(Part::of(line, RIDER_AT, riders::COLUMNS)) else {
            return Ok(());
        };
        let before = i128::from(row.before.hundredths());
        self.sum = self
            .sum
            .checked_add(before)
            .ok_or(StatementFault::StoreFailed)?;
        Ok(())
    }
}

/// The sums in the row of `meta`.
#[derive(Debug, Drop)]
struct MetaSums {
    /// Cash and revenue, in hundredths.
    found: Option<(i64, i64)>,
}

impl LineFold for MetaSums {
    ghost after = { with_meta };

    fn add(&mut self, line: &Row) -> Result<(), StatementFault> {
        if self.found.is_none() {
            self.found = match read_meta(Part::whole(line)) {
                Some(meta) => Some((meta.cash.hundredths(), meta.revenue.hundredths())),
                None => None,
            };
        }
        Ok(())
    }
}

/// How many entries there are, behind those that were archived.
fn count_entries<S: Alter>(conn: &mut Connection<S>) -> Result<u64, StatementFault>
    ensures { ReadsWhere S.Store IsOurs conn.old conn.new result
        (λ db count. count ≡ length (tables_of db).entries) }
{
    let entries = fold_lines(conn, Query::Entries, EntryCount { count: 0 })?;
    Ok(entries.count)
}

/// What riders had of the archived entries together, in hundredths.
fn sum_before<S: Alter>(conn: &mut Connection<S>) -> Result<BeforeSum, StatementFault>
    ensures { ReadsWhere S.Store IsOurs conn.old conn.new result
        (λ db before. before.sum ≡ befores (filter_map rider_in (tables_of db).riders)) }
{
    fold_lines(conn, Query::RiderRows, BeforeSum { sum: 0 })
}

/// Cash and revenue of the archived entries, in hundredths.
fn find_sums<S: Alter>(conn: &mut Connection<S>) -> Result<MetaSums, StatementFault>
    ensures { ReadsWhere S.Store IsOurs conn.old conn.new result
        (λ db sums. past_in sums ≡ past_of (tables_of db).meta) }
{
    fold_lines(conn, Query::Meta, MetaSums { found: None })
}

/// Whether what riders had and the revenue are the cash.
fn adds_up(before: &BeforeSum, sums: &MetaSums) -> bool
    ensures { result ≡ adds_up before.now.sum (past_in sums.now) }
{
    let (cash, revenue) = sums.found.unwrap_or((0, 0));
    before.sum.checked_add(i128::from(revenue)) == Some(i128::from(cash))
}

/// Whether what riders had and what was earned, by the archived entries, is what was paid in.
fn is_conserved<S: Alter>(conn: &mut Connection<S>) -> Result<bool, StatementFault>
    ensures { ReadsWhere S.Store IsOurs conn.old conn.new result (AnswersWhereArchived is_conserved) }
{
    let before = sum_before(conn)?;
    let sums = find_sums(conn)?;
    Ok(adds_up(&before, &sums))
}

/// Whether the last entry and the open rentals are as many as the last rental, and within the limit of entries.
fn are_few(last_rental: u64, last_entry: u64, riding: u64) -> bool
    ensures { result ≡ are_few last_rental last_entry riding }
{
    match last_entry.checked_add(riding) {
        Some(booked) => last_rental <= booked && booked <= u64::from(MOST_ENTRIES),
        None => false,
    }
}

/// The last number of so many archived ones and those behind them. `StoreFailed` where it passes 64 bits.
fn last_number(archived: u32, count: u64) -> Result<u64, StatementFault>
    ensures { IfOk result (λ last. last ≡ archived + count) }
{
    u64::from(archived)
        .checked_add(count)
        .ok_or(StatementFault::StoreFailed)
}

/// Whether there are so few rentals, and so few entries, where so many were archived.
fn are_numbers_few<S: Alter>(
    conn: &mut Connection<S>,
    archived: StoredBooks,
) -> Result<bool, StatementFault>
    ensures { ReadsWhere S.Store IsOurs conn.old conn.new result
        (λ db few. books_of archived ≡ archived_of (tables_of db).books
        → AnswersWhereArchived are_numbers_few db few) }
{
    let rentals = count_rentals(conn)?;
    let entries = count_entries(conn)?;
    let last_rental = last_number(archived.rentals, rentals.next.saturating_sub(1) as u64)?;
    let last_entry = last_number(archived.entries, entries)?;
    Ok(are_few(last_rental, last_entry, rentals.riding))
}

/// Whether anything was archived.
fn is_any(archived: &StoredBooks) -> bool
    ensures { result ≡ nat_le 1 (total_of (books_of archived.now)) }
{
    archived.requests.number() >= 1 || archived.entries >= 1 || archived.rentals >= 1
}

/// Whether all holds that is asked of the row beside that something was archived; where nothing was, it isn't looked
/// for.
fn others_hold<S: Alter>(conn: &mut Connection<S>) -> Result<bool, StatementFault>
    ensures { ReadsWhere S.Store IsOurs conn.old conn.new result (AnswersWhereArchived are_others) }
{
    let archived = find_archived(conn)?;
    if !is_any(&archived) {
        return Ok(false);
    }
    let are_few = are_numbers_few(conn, archived)?;
    let is_conserved = is_conserved(conn)?;
    Ok(are_few && is_conserved)
}

/// A row of `books` tells that something was archived, and the rest of what is asked of it holds.
#[derive(Debug, Drop)]
struct BooksTest {
    /// The rest.
    others: bool,
}

impl LineTest for BooksTest {
    ghost test = { λ this. books_test this.others };

    ghost key = { λ this. first_column };

    fn is_good(&self, before: u64, line: &Row) -> Result<bool, StatementFault> {
        match read_books(Part::whole(line)) {
            Some(books) => Ok(is_any(&books) && self.others),
            None => Ok(false),
        }
    }

    fn bad_key(&self, line: &Row) -> Result<BadKey, StatementFault> {
        number_key(line)
    }
}

/// The first bad key of `books`, where all tables before it are good: a row that tells nothing or that nothing was
/// archived, the row of a city with more rentals than entries and open rentals, or with more of these than there may
/// be, or where what riders had and what was earned isn't what was paid in. `NoMemory` where memory is refused,
/// `StoreFailed` where the database fails or a number or a sum passes its bits.
pub fn judge_books<S: Alter>(conn: &mut Connection<S>) -> Result<Option<BadKey>, StatementFault>
    ensures { ReadsWhere S.Store IsOurs conn.old conn.new result (JudgesTable Books) }
{
    let others = others_hold(conn)?;
    judge_lines(conn, Query::Books, LineJudge::new(BooksTest { others }))
}
