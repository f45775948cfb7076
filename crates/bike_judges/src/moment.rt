//! The operator's moment, which is the greater of that in `meta` and that in the last row of `history`.

ghost use Rattle.std.specs.Prelude.{◌≡◌, IfOk, unwrap_or};
ghost use Rattle.bike_sql.specs.Calls.{ReadsWhere};
ghost use Rattle.bike_schema.specs.Tables.{IsOurs, tables_of};
ghost use Rattle.bike_readings.specs.ReadOff.{moment_of};
ghost use Rattle.bike_judges.specs.Moments.{meta_row_in, since_in, last_row_in, last_in};

use bike_book::columns::history;
use bike_fixed::Moment;
use bike_readings::{Part, read_meta};
use bike_schema::{StatementFault, moment_at};
use bike_sql::lookup::first_row;
use sqlite::{Alter, Connection, Row, params};

/// Row 1 of `meta`.
fn find_meta_row<S: Alter>(conn: &mut Connection<S>) -> Result<Option<Row>, StatementFault>
    ensures { ReadsWhere S.Store IsOurs conn.old conn.new result (λ db row. meta_row_in (tables_of db) ≡ row) }
{
    first_row(conn, "SELECT * FROM meta WHERE one = ?1", params![1_i64])
}

/// The last row of `history`.
fn find_last_row<S: Alter>(conn: &mut Connection<S>) -> Result<Option<Row>, StatementFault>
    ensures { ReadsWhere S.Store IsOurs conn.old conn.new result (λ db row. last_row_in (tables_of db) ≡ row) }
{
    first_row(
        conn,
        "SELECT * FROM history ORDER BY number DESC LIMIT 1",
        &[],
    )
}

/// The moment that a row of `meta` spells.
fn since_in(row: Option<Row>) -> Option<Moment>
    ensures { result ≡ since_in row }
{
    match row {
        Some(row) => match read_meta(Part::whole(&row)) {
            Some(meta) => Some(meta.now),
            None => None,
        },
        None => None,
    }
}

/// The moment in a row of `history`.
fn last_in(row: Option<Row>) -> Option<Moment>
    ensures { result ≡ last_in row }
{
    match row {
        Some(row) => match moment_at(&row, history::MOMENT) {
            Ok(moment) => Some(moment),
            Err(_) => None,
        },
        None => None,
    }
}

/// The moment, and 0 where there is none.
fn or_zero(moment: Option<Moment>) -> Result<Moment, StatementFault>
    ensures { IfOk result (λ n. n ≡ unwrap_or moment 0) }
{
    match moment {
        Some(moment) => Ok(moment),
        None => Moment::new(0).ok_or(StatementFault::StoreFailed),
    }
}

/// The operator's moment. A row of `meta` that spells nothing counts as 0, and so does a last row of `history` with no
/// moment in its place. The database stays as it was. `NoMemory` where memory is refused; every other fault is the
/// database's.
pub fn find_now<S: Alter>(conn: &mut Connection<S>) -> Result<Moment, StatementFault>
    ensures { ReadsWhere S.Store IsOurs conn.old conn.new result (λ db now. now ≡ moment_of (tables_of db)) }
{
    let meta_row = find_meta_row(conn)?;
    let last_row = find_last_row(conn)?;
    let since = or_zero(since_in(meta_row))?;
    let last = or_zero(last_in(last_row))?;
    Ok(since.later(&last))
}
