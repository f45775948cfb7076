//! Where the history begins that can be served again.

ghost use Rattle.std.specs.Prelude.{◌≡◌, IfOk, option_map};
ghost use Rattle.bike_book.specs.Stored.{stored_request};
ghost use Rattle.bike_schema.specs.Answers.{Answers};
ghost use Rattle.bike_queries.specs.Requests.{ReadsBefore, history_begin, request_after};

use crate::span::seconds_of;
use bike_book::RequestCount;
use bike_book::columns::history;
use bike_fixed::Moment;
use bike_office_reads::{find_since, last_request};
use bike_schema::{StatementFault, request_count_at};
use bike_sql::lookup::first_row;
use sqlite::{Alter, Connection, Row, params};

/// No moment comes after so many seconds.
const NO_END: i64 = i64::MAX;

/// The row of the first request that came at a moment or later.
fn select_since<S: Alter>(
    conn: &mut Connection<S>,
    since: Moment,
) -> Result<Option<Row>, StatementFault>
    ensures { Answers S.Store conn.old conn.new result
        (λ s m row. row ≡ option_map stored_request (request_after s 0 since 9223372036854775807)) }
{
    first_row(
        conn,
        "SELECT * FROM history WHERE number > ?1 AND moment >= ?2 AND moment < ?3 ORDER BY number LIMIT 1",
        params![0, seconds_of(since), NO_END],
    )
}

/// The number itself.
fn number_of(count: RequestCount) -> u64
    ensures { result ≡ count }
{
    count.number() as u64
}

/// The number before that of the request that stands in a row of `history`. `StoreFailed` where the row isn't one of a
/// request.
fn read_before(row: &Row) -> Result<u64, StatementFault>
    ensures { IfOk result (ReadsBefore row.now) }
{
    let count = request_count_at(row, history::NUMBER)?;
    Ok(number_of(count).saturating_sub(1))
}

/// The number behind which the history stands with the moments that its requests had: behind those that were archived,
/// and behind those that a city had when it was upgraded, of which it keeps no moment. Every fault is the database's.
pub fn find_history_begin<S: Alter>(conn: &mut Connection<S>) -> Result<u64, StatementFault>
    ensures { Answers S.Store conn.old conn.new result (λ s m n. n ≡ history_begin m.since s) }
{
    let since = find_since(conn)?;
    match select_since(conn, since)? {
        Some(row) => read_before(&row),
        None => {
            let last = last_request(conn)?;
            Ok(number_of(last.number))
        }
    }
}
