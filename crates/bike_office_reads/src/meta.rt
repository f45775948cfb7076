//! The moment in `meta`.

ghost use Rattle.std.specs.Prelude.{◌≡◌, [], ◌∷◌};
ghost use Rattle.bike_book.specs.declared.version.TheConstants.{NEWEST};
ghost use Rattle.bike_book.specs.Tables.{Meta};
ghost use Rattle.bike_book.specs.Rows.{number_value, meta_row};
ghost use Rattle.bike_book.specs.Found.{row_under};
ghost use Rattle.bike_schema.specs.Answers.{Answers, IsReadOf};

use bike_book::columns::meta;
use bike_fixed::Moment;
use bike_schema::{StatementFault, moment_at};
use bike_sql::lookup::first_row;
use sqlite::{Alter, Connection, Row, params};

/// The one row of `meta`.
fn find_meta_row<S: Alter>(conn: &mut Connection<S>) -> Result<Option<Row>, StatementFault>
    ensures { Answers S.Store conn.old conn.new result
        (λ s m row. row ≡ row_under s m Meta (number_value 1 ∷ [])) }
{
    first_row(conn, "SELECT * FROM meta WHERE one = ?1", params![1_i64])
}

/// The moment that stands in a row of `meta`, whatever the sums beside it.
fn read_since(row: &Row) -> Result<Moment, StatementFault>
    ensures { (cash : _) (revenue : _) → IsReadOf (λ since. meta_row NEWEST since cash revenue) row.now result }
{
    moment_at(row, meta::NOW)
}

/// The moment in `meta`, which no request writes: 0 in a city that was made at this version, and in one that was raised
/// from an earlier version the moment that it had then. `NoMemory` and `StoreFailed` where the database wanted memory
/// or failed.
pub fn find_since<S: Alter>(conn: &mut Connection<S>) -> Result<Moment, StatementFault>
    ensures { Answers S.Store conn.old conn.new result (λ s m since. since ≡ m.since) }
{
    match find_meta_row(conn)? {
        Some(row) => read_since(&row),
        None => Err(StatementFault::StoreFailed),
    }
}
