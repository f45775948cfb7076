//! How many requests, entries and rentals were archived, by the row of `books`.

ghost use Rattle.std.specs.Prelude.{◌≡◌, IfOk, option_map, unwrap_or};
ghost use Rattle.bike_sql.specs.Calls.{ReadsWhere};
ghost use Rattle.bike_schema.specs.Tables.{IsOurs, tables_of};
ghost use Rattle.bike_readings.specs.ReadOff.{archived_of};
ghost use Rattle.bike_readings.specs.Views.{books_of};
ghost use Rattle.bike_judges.specs.Archived.{books_row_in, archived_in};

use bike_book::RequestCount;
use bike_readings::{Part, StoredBooks, read_books};
use bike_schema::StatementFault;
use bike_sql::lookup::first_row;
use sqlite::{Alter, Connection, Row, params};

/// Row 1 of `books`.
fn find_books_row<S: Alter>(conn: &mut Connection<S>) -> Result<Option<Row>, StatementFault>
    ensures { ReadsWhere S.Store IsOurs conn.old conn.new result (λ db row. books_row_in (tables_of db) ≡ row) }
{
    first_row(conn, "SELECT * FROM books WHERE one = ?1", params![1_i64])
}

/// What a row of `books` spells.
fn archived_in(row: Option<Row>) -> Option<StoredBooks>
    ensures { option_map books_of result ≡ archived_in row }
{
    match row {
        Some(row) => read_books(Part::whole(&row)),
        None => None,
    }
}

/// What is told, and 0 of each where nothing is.
fn or_none_archived(told: Option<StoredBooks>) -> Result<StoredBooks, StatementFault>
    ensures { IfOk result (λ books. books_of books ≡ unwrap_or (option_map books_of told) (0, 0, 0)) }
{
    match told {
        Some(books) => Ok(books),
        None => {
            let requests = RequestCount::new(0).ok_or(StatementFault::StoreFailed)?;
            Ok(StoredBooks {
                requests,
                entries: 0,
                rentals: 0,
            })
        }
    }
}

/// How many requests, entries and rentals were archived: 0 of each where no row of `books` spells it. The database
/// stays as it was. `NoMemory` where memory is refused; every other fault is the database's.
pub fn find_archived<S: Alter>(conn: &mut Connection<S>) -> Result<StoredBooks, StatementFault>
    ensures { ReadsWhere S.Store IsOurs conn.old conn.new result
        (λ db archived. books_of archived ≡ archived_of (tables_of db).books) }
{
    let row = find_books_row(conn)?;
    or_none_archived(archived_in(row))
}
