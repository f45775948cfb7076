//! How much was archived.

ghost use Rattle.std.specs.Prelude.{◌≡◌, [], ◌∷◌};
ghost use Rattle.bike_book.specs.Tables.{Books};
ghost use Rattle.bike_book.specs.Rows.{number_value, books_row};
ghost use Rattle.bike_book.specs.Found.{row_under};
ghost use Rattle.bike_schema.specs.Answers.{Answers, IsReadOf};
ghost use Rattle.bike_office_reads.specs.Accounts.{archived_of};

use crate::numbers::number_in;
use bike_book::RequestCount;
use bike_book::columns::books;
use bike_schema::{StatementFault, request_count_at};
use bike_sql::lookup::first_row;
use sqlite::{Alter, Connection, Row, params};

/// How many accepted requests, entries and rentals were archived: those that follow have the numbers behind these.
#[derive(Clone, Copy)]
pub struct Archived {
    /// So many accepted requests.
    pub requests: RequestCount,
    /// So many entries.
    pub entries: u32,
    /// So many rentals.
    pub rentals: u32,
}

/// The one row of `books`.
fn find_books_row<S: Alter>(conn: &mut Connection<S>) -> Result<Option<Row>, StatementFault>
    ensures { Answers S.Store conn.old conn.new result
        (λ s m row. row ≡ row_under s m Books (number_value 1 ∷ [])) }
{
    first_row(conn, "SELECT * FROM books WHERE one = ?1", params![1_i64])
}

/// What stands in a row of `books`.
fn read_archived(row: &Row) -> Result<Archived, StatementFault>
    ensures { IsReadOf (λ x. books_row x.requests x.entries x.rentals) row.now result }
{
    let requests = request_count_at(row, books::REQUESTS)?;
    let entries = number_in(row, books::ENTRIES)?;
    let rentals = number_in(row, books::RENTALS)?;
    Ok(Archived {
        requests,
        entries,
        rentals,
    })
}

/// How much was archived, as the row of `books` tells; nothing where there is none. Every fault is the database's.
pub fn find_archived<S: Alter>(conn: &mut Connection<S>) -> Result<Archived, StatementFault>
    ensures { Answers S.Store conn.old conn.new result (λ s m x. x ≡ archived_of s) }
{
    match find_books_row(conn)? {
        Some(row) => read_archived(&row),
        None => {
            let requests = RequestCount::new(0).ok_or(StatementFault::StoreFailed)?;
            Ok(Archived {
                requests,
                entries: 0,
                rentals: 0,
            })
        }
    }
}
