//! The history: its requests in their order, and their callers and keys.

ghost use Rattle.std.specs.Prelude.{◌≡◌, IfOk, option_map};
ghost use Rattle.sqlite_value.specs.Order.{column};
ghost use Rattle.sqlite_value.specs.Value.{owned};
ghost use Rattle.bike_book.specs.Tables.{History};
ghost use Rattle.bike_sql.specs.Calls.{ReadsWhere};
ghost use Rattle.bike_schema.specs.Tables.{IsOurs};
ghost use Rattle.bike_judges.specs.Judging.{key_row};
ghost use Rattle.bike_judges.specs.Verdicts.{JudgesTable};
ghost use Rattle.bike_readings.specs.Readings.{request_read};
ghost use Rattle.bike_readings.specs.Views.{request_of};
ghost use Rattle.bike_ledger_rules.specs.History.{is_next_request, next_moment, first_astray};
ghost use Rattle.bike_ledger_rules.specs.History.{has_same_key, number_again, least_again};

use crate::columns::{number_at, number_key};
use bike_book::RequestCount;
use bike_fixed::Moment;
use bike_judges::{BadKey, Judge, Query, find_archived, find_now, judge_lines, least};
use bike_readings::{Part, StoredRequest, read_request};
use bike_schema::StatementFault;
use sqlite::types::ValueRef;
use sqlite::{Alter, Connection, Row};
use sqlite_value::order::compare;
use std::alloc::Global;

/// So many requests.
fn count(requests: RequestCount) -> u64
    ensures { result ≡ requests }
{
    requests.number() as u64
}

/// Finds the first row that isn't the next request after those before it.
#[derive(Drop)]
struct RequestJudge {
    alloc: Global,
    /// The operator's moment.
    moment: Moment,
    /// The moment of the request before, if there was one.
    last: Option<Moment>,
    /// How many requests there were so far, archived ones included.
    before: u64,
}

impl RequestJudge {
    /// Whether it has the next number, and is neither after the operator's moment nor before the request before it.
    fn is_next(&self, request: &StoredRequest) -> bool
        ensures { result ≡ is_next_request self.now.moment self.now.before self.now.last (request_of request.now) }
    {
        let number = request.number.number() as u64;
        let is_next = number.checked_sub(1) == Some(self.before);
        let by_now = request.moment.seconds() <= self.moment.seconds();
        let is_later = match self.last {
            Some(last) => last.seconds() <= request.moment.seconds(),
            None => true,
        };
        is_next && by_now && is_later
    }

    /// The moment of a request, where it is the next one.
    fn next_moment(&self, request: &Option<StoredRequest>) -> Option<Moment>
        ensures { result ≡ next_moment self.now.moment self.now.before self.now.last
            (option_map request_of request.now) }
    {
        match request {
            Some(request) if self.is_next(request) => Some(request.moment),
            _ => None,
        }
    }

    /// The moment of the request in a row, where it is the next one. It is an error where memory is refused.
    fn read_next(&self, line: &Row) -> Result<Option<Moment>, StatementFault>
        ensures { IfOk result (λ moment. moment ≡ next_moment self.now.moment self.now.before self.now.last
            (request_read line.now)) }
    {
        let request = read_request(self.alloc, Part::whole(line))?;
        Ok(self.next_moment(&request))
    }
}

impl Judge for RequestJudge {
    ghost says = { λ j lines verdict. first_astray j.moment j.before j.last lines ≡ verdict };

    fn take(&mut self, line: &Row) -> Result<Option<BadKey>, StatementFault> {
        let next = self.read_next(line)?;
        let Some(moment) = next else {
            return Ok(Some(number_key(line)?));
        };
        self.last = Some(moment);
        self.before = self
            .before
            .checked_add(1)
            .ok_or(StatementFault::StoreFailed)?;
        Ok(None)
    }

    fn end(self) -> Option<BadKey> {
        None
    }
}

/// The value in a column of a line, and NULL beyond its end.
fn value_in(line: &Row, at: usize) -> ValueRef<'_>
    ensures { owned result ≡ column line.now at }
{
    line.get_ref(at).unwrap_or(ValueRef::Null)
}

/// Whether two lines have one caller and key.
fn has_same_key(a: &Row, b: &Row) -> bool
    ensures { result ≡ has_same_key a.now b.now }
{
    compare(value_in(a, 0), value_in(b, 0)).is_eq()
        && compare(value_in(a, 1), value_in(b, 1)).is_eq()
}

/// Finds the least number of a row whose caller and key an earlier row has, in lines of callers, keys and numbers in
/// their order.
#[derive(Drop)]
struct KeyJudge {
    /// The line before, if there was one.
    last: Option<Row>,
    /// The least such number so far.
    found: Option<BadKey>,
}

impl KeyJudge {
    /// The number in the line, where the line before has its caller and key.
    fn number_again(&self, line: &Row) -> Result<Option<BadKey>, StatementFault>
        ensures { IfOk result (λ found. option_map key_row found ≡ number_again self.now.last line.now) }
    {
        match &self.last {
            Some(last) if has_same_key(line, last) => Ok(Some(number_at(line, 2)?)),
            _ => Ok(None),
        }
    }
}

impl Judge for KeyJudge {
    ghost says = { λ j lines verdict. least_again (option_map key_row j.found) j.last lines ≡ verdict };

    fn take(&mut self, line: &Row) -> Result<Option<BadKey>, StatementFault> {
        let again = self.number_again(line)?;
        self.found = least(self.found.take(), again);
        self.last = Some(line.copy()?);
        Ok(None)
    }

    fn end(self) -> Option<BadKey> {
        self.found
    }
}

/// The first bad key of `history`, where all tables before it are good: a row that spells no accepted request, one
/// whose number isn't the next, that is after the last moment or before the request before it, or whose caller and key
/// an earlier row has. It keeps one row in memory. `NoMemory` where memory is refused, `StoreFailed` where the database
/// fails or a count passes 64 bits.
pub fn judge_history<S: Alter>(
    alloc: Global,
    conn: &mut Connection<S>,
) -> Result<Option<BadKey>, StatementFault>
    ensures { ReadsWhere S.Store IsOurs conn.old conn.new result (JudgesTable History) }
{
    let moment = find_now(conn)?;
    let archived = find_archived(conn)?;
    let requests = RequestJudge {
        alloc,
        moment,
        last: None,
        before: count(archived.requests),
    };
    let by_order = judge_lines(conn, Query::History, requests)?;
    let keys = KeyJudge {
        last: None,
        found: None,
    };
    let by_keys = judge_lines(conn, Query::HistoryKeys, keys)?;
    Ok(least(by_order, by_keys))
}
