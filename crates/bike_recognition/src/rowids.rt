//! A pass over the rowids of a table: the engine's contracts don't tell that they are numbers and apart.

ghost use Rattle.std.specs.Prelude.{◌≡◌, IfOk, IsTrue};
ghost use Rattle.std.specs.Borrow.{sem};
ghost use Rattle.sqlite.specs.Held.{state};
ghost use Rattle.sqlite.specs.State.{HasCleanDisk};
ghost use Rattle.bike_sql.specs.Calls.{IsQuiet, LendsWhere, ReadsWhere};
ghost use Rattle.bike_recognition.specs.Rowids.{AsksRowids, AreApart, Holds, is_above, BeginsPass, Steps};

use bike_schema::StatementFault;
use sqlite::types::ValueRef;
use sqlite::{Alter, Connection, Error, Row, Rows};

/// The rowid of a stored row.
#[derive(Clone, Copy)]
struct Rowid {
    number: i64,
}

/// What comes next in a pass.
#[derive(Clone, Copy)]
enum NextRowid {
    Number(Rowid),
    /// A row that holds no number.
    Other,
    End,
}

/// Begins a pass over the rowids of the table that the text names.
fn begin_pass<'a, S: Alter>(conn: &'a mut Connection<S>, sql: &str) -> Result<Rows<'a, S>, Error>
    ensures* lends { sem 𝓛 (LendsWhere S.row S.Store (λ db. AsksRowids db sql.now) conn.entry result) }
    ensures same_reference { IfOk result (λ rows. rows.conn.ghost_name ≡ conn.entry.ghost_name) }
    ensures begun { IfOk result (λ rows. HasCleanDisk (state S.Store rows.conn.now)
        → AsksRowids (state S.Store conn.old).now sql.now
        → BeginsPass S.Store sql.now conn.old rows.conn.now) }
    ensures quiet { IfOk result (λ rows. IsQuiet S.Store (λ db. AsksRowids db sql.now) conn.old rows.conn.now) }
{
    conn.query(sql, &[])
}

/// The one number of the row.
fn number_in(row: &Row) -> NextRowid
    ensures { Holds row.now result }
{
    if row.column_count() != 1 {
        return NextRowid::Other;
    }
    match row.get_ref(0) {
        Ok(ValueRef::Int(number)) => NextRowid::Number(Rowid { number }),
        _ => NextRowid::Other,
    }
}

/// The next row of a pass.
fn next_rowid<S: Alter>(rows: &mut Rows<'_, S>) -> Result<NextRowid, StatementFault>
    ensures same_reference { rows.new.conn.ghost_name ≡ rows.old.conn.ghost_name }
    ensures steps { Steps S.Store rows.old.conn.now rows.new.conn.now result }
{
    rows.advance()?;
    match rows.get() {
        Some(row) => Ok(number_in(row)),
        None => Ok(NextRowid::End),
    }
}

/// Whether the rowid is above the last one.
fn is_above(last: Option<Rowid>, id: Rowid) -> bool
    ensures { result ≡ is_above last id }
{
    match last {
        Some(last) => last.number < id.number,
        None => true,
    }
}

/// Whether the rowids that the text asks for are numbers that rise. In order, and rising, they are apart.
pub fn are_apart<S: Alter>(conn: &mut Connection<S>, sql: &str) -> Result<bool, StatementFault>
    ensures { ReadsWhere S.Store (λ db. AsksRowids db sql.now) conn.old conn.new result
        (λ db apart. IsTrue apart → (it : AsksRowids db sql.now) → AreApart (db.trees it.tree)) }
{
    let mut rows = begin_pass(conn, sql)?;
    let mut last: Option<Rowid> = None;
    'rows: for _ in 0..usize::MAX {
        match next_rowid(&mut rows)? {
            NextRowid::Number(id) => {
                if !is_above(last, id) {
                    return Ok(false);
                }
                last = Some(id);
            }
            NextRowid::Other => return Ok(false),
            NextRowid::End => return Ok(true),
        }
    }
    Err(StatementFault::StoreFailed)
}
