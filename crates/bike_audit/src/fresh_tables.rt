//! The empty tables, made in one transaction: all of them or none.

ghost use Rattle.std.specs.Prelude.{◌≡◌, ◌≤◌, false, OnOk};
ghost use Rattle.sqlite.specs.State.{HasCleanDisk, Survives};
ghost use Rattle.sqlite.specs.Held.{state};
ghost use Rattle.sqlite_trees.specs.View.{doubt};
ghost use Rattle.bike_schema.specs.Tables.{HasNone};
ghost use Rattle.bike_audit.specs.Adoption.{AreFresh, AreMade};

use bike_schema::{StatementFault, create_tables};
use sqlite::{Alter, Connection};

/// Makes the empty tables in one transaction, or none. An error says nothing of whether they were made.
pub fn make_tables<S: Alter>(conn: &mut Connection<S>) -> Result<(), StatementFault>
    requires { conn.old.in_transaction ≡ false }
    ensures ended { conn.new.in_transaction ≡ false }
    ensures clean { doubt (state S.Store conn.old).is_clean ≤ doubt (state S.Store conn.new).is_clean }
    ensures made { HasCleanDisk (state S.Store conn.new) → HasNone (state S.Store conn.old).now.schema
        → OnOk result (AreMade (state S.Store conn.old) (state S.Store conn.new)) }
    ensures crash { HasNone (state S.Store conn.old).now.schema
        → Survives (state S.Store conn.old) (state S.Store conn.new) (AreFresh (state S.Store conn.old)) }
{
    let mut created = conn.transaction();
    create_tables(&mut created)?;
    match created.commit() {
        Ok(()) => Ok(()),
        Err(_) => Err(StatementFault::StoreFailed),
    }
}
