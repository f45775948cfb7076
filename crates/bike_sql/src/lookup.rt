//! The answer of a look-up.

ghost use Rattle.std.specs.Prelude.{◌≡◌};
ghost use Rattle.sqlite.specs.Values.{bound};
ghost use Rattle.bike_sql.specs.Outcome.{if_any};
ghost use Rattle.bike_sql.specs.Runs.{QueriesFirst};

use sqlite::types::ValueRef;
use sqlite::{Alter, Connection, Error, Row};

/// The row that `query_row` answered, and `None` where it found none.
pub fn row_if_any(answer: Result<Row, Error>) -> Result<Option<Row>, Error>
    ensures { result ≡ if_any answer }
{
    match answer {
        Ok(row) => Ok(Some(row)),
        Err(Error::QueryReturnedNoRows) => Ok(None),
        Err(error) => Err(error),
    }
}

/// The first row that the query answers, or `None` where it answers none. What the database refuses is an error of
/// the caller's own.
pub fn first_row<S: Alter, E: From<Error>>(
    conn: &mut Connection<S>,
    sql: &str,
    params: &[ValueRef<'_>],
) -> Result<Option<Row>, E>
    ensures { QueriesFirst S.Store conn.old conn.new sql.now (bound params.now) E.from_gives result }
{
    match row_if_any(conn.query_row(sql, params)) {
        Ok(row) => Ok(row),
        Err(error) => Err(E::from(error)),
    }
}
