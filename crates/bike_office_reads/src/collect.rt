//! All rows of a walk, each read where the engine has it. A copy of a row, as `query_all` makes it, takes some two
//! fifths of what the walk takes.

ghost use Rattle.std.specs.Prelude.{◌≡◌, false, IfOk, OnOk, OnErr};
ghost use Rattle.std.specs.List.{AllZip};
ghost use Rattle.sqlite_value.specs.declared.value.Value.TheVariants.{Text};
ghost use Rattle.sqlite_value.specs.Order.{Row, column};
ghost use Rattle.sqlite.specs.Held.{state};
ghost use Rattle.sqlite.specs.State.{HasCleanDisk, IsUnchanged, Survives};
ghost use Rattle.bike_sql.specs.Calls.{ReadsWhere};
ghost use Rattle.bike_sql.specs.Outcome.{IsLeft};
ghost use Rattle.bike_sql.specs.Walk.{IsWalking};
ghost use Rattle.bike_schema.specs.Tables.{IsOurs};
ghost use Rattle.bike_office_reads.specs.Collect.{WalksOver, ReadsNext};

use arrayvec::ArrayString;
use bike_schema::StatementFault;
use sqlite::types::ValueRef;
use sqlite::{Alter, Row, Rows};
use std::alloc::Global;
use std::str;

/// What is read of a row.
pub trait ReadRow: Drop {
    /// What it holds of the row.
    ghost reads: { Row → Self → Type 0 };

    /// What stands in the row. `StoreFailed` where it holds what the product never writes, `NoMemory` where a text
    /// finds no room.
    fn read(alloc: Global, row: &Row) -> Result<Self, StatementFault>
        ensures { IfOk result (reads row.now) };
}

/// The text in a column. `StoreFailed` where there is no text, or a longer one.
pub fn short_text_at<const MOST: usize>(
    row: &Row,
    at: usize,
) -> Result<ArrayString<MOST>, StatementFault>
    ensures { IfOk result (λ text. column row.now at ≡ Text text.bytes) }
{
    let Ok(ValueRef::Text(bytes)) = row.get_ref(at) else {
        return Err(StatementFault::StoreFailed);
    };
    let Ok(text) = str::from_utf8(bytes) else {
        return Err(StatementFault::StoreFailed);
    };
    if text.len() > MOST {
        return Err(StatementFault::StoreFailed);
    }
    let mut kept = ArrayString::new();
    kept.push_str(text);
    Ok(kept)
}

/// What is read of the next row of a walk, or `None` at its end.
fn read_next<S: Alter, R: ReadRow>(
    alloc: Global,
    rows: &mut Rows<'_, S>,
) -> Result<Option<R>, StatementFault>
    // The next row, as its reader reads it.
    ensures same_reference { rows.new.conn.ghost_name ≡ rows.old.conn.ghost_name }
    ensures next { HasCleanDisk (state S.Store rows.new.conn.now)
        → IfOk result (λ x. (left : _) → IsWalking S.Store rows.old.conn.now left
        → ReadsNext S.Store R.reads rows.new.conn.now left x) }
    // Nothing is changed, and what a failed read leaves.
    ensures same { HasCleanDisk (state S.Store rows.new.conn.now)
        → OnOk result (IsUnchanged (state S.Store rows.old.conn.now) (state S.Store rows.new.conn.now)) }
    ensures failed { HasCleanDisk (state S.Store rows.new.conn.now)
        → OnErr result (IsLeft (state S.Store rows.old.conn.now) (state S.Store rows.new.conn.now)) }
    ensures mode { rows.old.conn.now.in_transaction ≡ false → rows.new.conn.now.in_transaction ≡ false }
    ensures survives { Survives (state S.Store rows.old.conn.now) (state S.Store rows.new.conn.now) (λ _. ⊥) }
{
    rows.advance()?;
    match rows.get() {
        Some(row) => Ok(Some(R::read(alloc, row)?)),
        None => Ok(None),
    }
}

/// What is read of all rows that are to come, one after another. `NoMemory` where memory is refused; every other fault
/// is the database's, or one of a row that can't be read.
pub fn collect_rows<S: Alter, R: ReadRow>(
    alloc: Global,
    rows: &mut Rows<'_, S>,
) -> Result<Vec<R>, StatementFault>
    ensures same_reference { rows.new.conn.ghost_name ≡ rows.old.conn.ghost_name }
    ensures read { (first : _) (all : _) → WalksOver S.Store first rows.old.conn.now all
        → ReadsWhere S.Store IsOurs first rows.new.conn.now result (λ db xs. AllZip R.reads (all db) xs.items) }
{
    let mut all = Vec::new(alloc);
    'rows: for _ in 0..usize::MAX {
        match read_next(alloc, rows)? {
            Some(value) => {
                if all.push(value).is_err() {
                    return Err(StatementFault::NoMemory);
                }
            }
            None => return Ok(all),
        }
    }
    Err(StatementFault::StoreFailed)
}
