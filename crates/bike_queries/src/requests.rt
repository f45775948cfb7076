//! The history of accepted requests in order of their numbers: page by page, and those of a span of time one after
//! another.

ghost use Rattle.std.specs.Prelude.{◌≡◌, IfOk, filter, map, min, option_map, pos, take};
ghost use Rattle.std.specs.Borrow.{sem};
ghost use Rattle.bike_operator.specs.Requests.{request_texts};
ghost use Rattle.bike_book.specs.Numbers.{most_requests};
ghost use Rattle.bike_book.specs.Stored.{stored_request};
ghost use Rattle.bike_sql.specs.Calls.{LendsWhere, WalksWhere};
ghost use Rattle.bike_schema.specs.Answers.{Answers};
ghost use Rattle.bike_schema.specs.Tables.{IsOurs, tables_of};
ghost use Rattle.bike_queries.specs.Requests.{ReadsRequest, is_behind, request_after, request_page};

use crate::span::seconds_of;
use bike_book::MOST_REQUESTS;
use bike_book::columns::history;
use bike_fixed::Moment;
use bike_office_reads::{ReadRow, collect_rows};
use bike_operator::{RequestInfo, RequestPage};
use bike_schema::{StatementFault, moment_at, request_count_at, text_at};
use bike_sql::lookup::first_row;
use sqlite::{Alter, Connection, Error, Row, Rows, params};
use std::alloc::Global;

/// The most requests that one statement answers. A page is a bounded part of a walk, and no list of the whole history.
pub const REQUESTS_A_PAGE: usize = 64;

/// A request, read of its row.
#[derive(Drop)]
pub(crate) struct RequestRow {
    request: RequestInfo,
}

impl ReadRow for RequestRow {
    ghost reads = { λ row x. ReadsRequest row x.request };

    fn read(alloc: Global, row: &Row) -> Result<RequestRow, StatementFault> {
        let request = read_request(alloc, row)?;
        Ok(RequestRow { request })
    }
}

/// The number after which the history goes on, as a row's. No request comes after the greatest number of a row, nor
/// after one that is greater than that.
fn start_at(number: u64) -> i64
    ensures { result ≡ pos (min number most_requests) }
{
    number.min(MOST_REQUESTS) as i64
}

/// The request that stands in a row of `history`. `StoreFailed` where the row isn't one of a request, `NoMemory` where
/// a text finds no room.
fn read_request(alloc: Global, row: &Row) -> Result<RequestInfo, StatementFault>
    ensures { IfOk result (ReadsRequest row.now) }
{
    let count = request_count_at(row, history::NUMBER)?;
    let number = count.number() as u64;
    let moment = moment_at(row, history::MOMENT)?;
    let caller = text_at(alloc, row, history::CALLER)?;
    let key = text_at(alloc, row, history::REQ_KEY)?;
    let command = text_at(alloc, row, history::COMMAND)?;
    let reply = text_at(alloc, row, history::REPLY)?;
    Ok(RequestInfo {
        number,
        moment,
        caller,
        key,
        command,
        reply,
    })
}

/// Begins to read the requests of a later number, as many as a page holds.
fn begin_requests<S: Alter>(conn: &mut Connection<S>, number: u64) -> Result<Rows<'_, S>, Error>
    ensures* lends { sem 𝓛 (LendsWhere S.row S.Store IsOurs conn.entry result) }
    ensures walks { WalksWhere S.Store IsOurs conn.entry result (λ db.
        take REQUESTS_A_PAGE (filter (is_behind (min number most_requests)) (tables_of db).history)) }
{
    conn.query(
        "SELECT * FROM history WHERE number > ?1 ORDER BY number LIMIT 64",
        params![start_at(number)],
    )
}

/// The requests of a later number, the first ones, as many as a page holds.
fn select_requests<S: Alter>(
    alloc: Global,
    conn: &mut Connection<S>,
    number: u64,
) -> Result<Vec<RequestRow>, StatementFault>
    ensures { Answers S.Store conn.old conn.new result
        (λ s m rows. map (λ row. row.request) rows.items ≡ request_page s number) }
{
    let mut rows = begin_requests(conn, number)?;
    collect_rows(alloc, &mut rows)
}

/// The requests by themselves.
fn page_of(alloc: Global, rows: Vec<RequestRow>) -> Result<RequestPage, StatementFault>
    ensures { IfOk result (λ page. page ≡ map (λ row. row.request) rows.items) }
{
    let requests = rows.into_iter().map(|row| row.request).collect(alloc)?;
    Ok(RequestPage::new(requests))
}

/// The requests of a later number in order, the first ones, as many as a page holds: an empty page exactly where none
/// is left. `NoMemory` where a text or the page finds no room; every other fault is the database's.
pub fn find_requests_after<S: Alter>(
    alloc: Global,
    conn: &mut Connection<S>,
    number: u64,
) -> Result<RequestPage, StatementFault>
    ensures { Answers S.Store conn.old conn.new result (λ s m page. page ≡ request_page s number) }
{
    let rows = select_requests(alloc, conn, number)?;
    page_of(alloc, rows)
}

/// The row of the first request of a later number whose moment lies in the span.
fn select_request<S: Alter>(
    conn: &mut Connection<S>,
    number: u64,
    begin: Moment,
    end: Moment,
) -> Result<Option<Row>, StatementFault>
    ensures { Answers S.Store conn.old conn.new result
        (λ s m row. row ≡ option_map stored_request (request_after s (min number most_requests) begin end)) }
{
    first_row(
        conn,
        "SELECT * FROM history WHERE number > ?1 AND moment >= ?2 AND moment < ?3 ORDER BY number LIMIT 1",
        params![start_at(number), seconds_of(begin), seconds_of(end)],
    )
}

/// The first request of a later number whose moment is `begin` or later and before `end`; `None` where there is none.
/// `NoMemory` where a text finds no room; every other fault is the database's.
pub fn find_request_after<S: Alter>(
    alloc: Global,
    conn: &mut Connection<S>,
    number: u64,
    begin: Moment,
    end: Moment,
) -> Result<Option<RequestInfo>, StatementFault>
    ensures { Answers S.Store conn.old conn.new result
        (λ s m x. x ≡ option_map request_texts (request_after s number begin end)) }
{
    match select_request(conn, number, begin, end)? {
        Some(row) => Ok(Some(read_request(alloc, &row)?)),
        None => Ok(None),
    }
}
