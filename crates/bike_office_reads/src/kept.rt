//! The history of accepted requests.

ghost use Rattle.std.specs.Prelude.{◌≡◌, [], ◌∷◌, slice_get, IfOk};
ghost use Rattle.sqlite_value.specs.declared.value.Value.TheVariants.{Text};
ghost use Rattle.bike_operator.specs.Operator.{key_of, kept_under};
ghost use Rattle.bike_book.specs.Tables.{History};
ghost use Rattle.bike_book.specs.Found.{rows_by, last_row};
ghost use Rattle.bike_schema.specs.Answers.{Answers};
ghost use Rattle.bike_office_reads.specs.Accounts.{KeepsSame, last_request_of};
ghost use Rattle.bike_office_reads.specs.ReadRows.{KeepsRow, IsLastRead};

use crate::books::find_archived;
use bike_book::RequestCount;
use bike_book::columns::history;
use bike_commands::Reply;
use bike_fixed::Moment;
use bike_schema::{StatementFault, moment_at, request_count_at, text_at};
use bike_sql::lookup::first_row;
use sqlite::{Alter, Connection, Row, params};
use std::alloc::Global;

/// What is kept of an accepted request.
#[derive(Drop)]
pub struct KeptRow {
    /// The command's text.
    pub command: String,
    /// The reply that it was given.
    pub reply: Reply,
}

/// The number of the last accepted request, which is how many there are, archived ones included, and its moment, which
/// is 0 where all were archived.
#[derive(Clone, Copy)]
pub struct LastRequest {
    /// Its number.
    pub number: RequestCount,
    /// Its moment.
    pub moment: Moment,
}

/// The row of `history` of this caller and key.
fn find_kept_row<S: Alter>(
    conn: &mut Connection<S>,
    caller: &str,
    key: &str,
) -> Result<Option<Row>, StatementFault>
    ensures { Answers S.Store conn.old conn.new result
        (λ s m row. row ≡ slice_get (rows_by s m History (2 ∷ 3 ∷ []) (Text caller.now ∷ Text key.now ∷ [])) 0) }
{
    first_row(
        conn,
        "SELECT * FROM history WHERE caller = ?1 AND req_key = ?2 ORDER BY number LIMIT 1",
        params![caller, key],
    )
}

/// What a row of `history` keeps, whatever its number, caller and key. `StoreFailed` where its reply is the text of
/// none.
fn read_kept(alloc: Global, row: &Row) -> Result<KeptRow, StatementFault>
    ensures { IfOk result (KeepsRow row.now) }
{
    let command = text_at(alloc, row, history::COMMAND)?;
    let text = text_at(alloc, row, history::REPLY)?;
    match Reply::read(text.as_str()) {
        Some(reply) => Ok(KeptRow { command, reply }),
        None => Err(StatementFault::StoreFailed),
    }
}

/// What is kept under a caller's text and a key, if anything is. `NoMemory` where the command's text finds no room;
/// every other fault is the database's.
pub fn find_kept<S: Alter>(
    alloc: Global,
    conn: &mut Connection<S>,
    caller: &str,
    key: &str,
) -> Result<Option<KeptRow>, StatementFault>
    ensures { Answers S.Store conn.old conn.new result
        (λ s m x. KeepsSame (kept_under (key_of caller.now key.now) s.history.items) x) }
{
    match find_kept_row(conn, caller, key)? {
        Some(row) => Ok(Some(read_kept(alloc, &row)?)),
        None => Ok(None),
    }
}

/// The last row of `history`.
fn find_last_request<S: Alter>(conn: &mut Connection<S>) -> Result<Option<Row>, StatementFault>
    ensures { Answers S.Store conn.old conn.new result (λ s m row. row ≡ last_row s m History) }
{
    first_row(
        conn,
        "SELECT * FROM history ORDER BY number DESC LIMIT 1",
        &[],
    )
}

/// The number and the moment in a row of `history`.
fn read_last(row: &Row) -> Result<LastRequest, StatementFault>
    ensures { IfOk result (IsLastRead row.now) }
{
    let number = request_count_at(row, history::NUMBER)?;
    let moment = moment_at(row, history::MOMENT)?;
    Ok(LastRequest { number, moment })
}

/// The last accepted request. Every fault is the database's.
pub fn last_request<S: Alter>(conn: &mut Connection<S>) -> Result<LastRequest, StatementFault>
    ensures { Answers S.Store conn.old conn.new result (λ s m last. last ≡ last_request_of s) }
{
    match find_last_request(conn)? {
        Some(row) => read_last(&row),
        None => {
            let number = find_archived(conn)?.requests;
            let moment = Moment::new(0).ok_or(StatementFault::StoreFailed)?;
            Ok(LastRequest { number, moment })
        }
    }
}
