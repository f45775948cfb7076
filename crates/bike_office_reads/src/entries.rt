//! The ledger's entries.

ghost use Rattle.std.specs.Prelude.{◌≡◌};
ghost use Rattle.bike_operator.specs.Operator.{last_number};
ghost use Rattle.bike_book.specs.Tables.{Entries};
ghost use Rattle.bike_book.specs.Found.{last_row};
ghost use Rattle.bike_schema.specs.Answers.{Answers};

use crate::books::find_archived;
use crate::numbers::number_in;
use bike_book::columns::entries;
use bike_schema::StatementFault;
use bike_sql::lookup::first_row;
use sqlite::{Alter, Connection, Row};

/// The last row of `entries`.
fn find_last_entry<S: Alter>(conn: &mut Connection<S>) -> Result<Option<Row>, StatementFault>
    ensures { Answers S.Store conn.old conn.new result (λ s m row. row ≡ last_row s m Entries) }
{
    first_row(
        conn,
        "SELECT * FROM entries ORDER BY entry DESC LIMIT 1",
        &[],
    )
}

/// How many entries there are, archived ones included, as the last one's number says, or what was archived where there
/// is none behind it. Every fault is the database's.
pub fn entry_count<S: Alter>(conn: &mut Connection<S>) -> Result<u32, StatementFault>
    ensures { Answers S.Store conn.old conn.new result (λ s m x. x ≡ last_number s.entries) }
{
    match find_last_entry(conn)? {
        Some(row) => number_in(&row, entries::ENTRY),
        None => Ok(find_archived(conn)?.entries),
    }
}
