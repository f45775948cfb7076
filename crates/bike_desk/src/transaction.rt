//! Row changes in one transaction: all of them or none.

ghost use Rattle.std.specs.Prelude.{◌≡◌, ◌≤◌, false, OnOk};
ghost use Rattle.sqlite.specs.Held.{state};
ghost use Rattle.sqlite_trees.specs.View.{doubt};
ghost use Rattle.bike_schema.specs.Makes.{OthersStay};
ghost use Rattle.bike_schema.specs.Stands.{Keeps};
ghost use Rattle.bike_desk.specs.Kept.{CrashLeavesEither, ForEachNext};

use bike_book::RowChange;
use bike_schema::StatementFault;
use bike_writes::put;
use sqlite::{Alter, Connection};
use std::alloc::Global;

/// Makes all changes in one transaction, or none. Tables of other names stay. An error says nothing of whether the
/// changes were made.
pub fn make_all<S: Alter>(
    alloc: Global,
    conn: &mut Connection<S>,
    changes: &[RowChange<'_>],
) -> Result<(), StatementFault>
    requires { conn.old.in_transaction ≡ false }
    // No transaction is left open.
    ensures ended { conn.new.in_transaction ≡ false }
    ensures clean { doubt (state S.Store conn.old).is_clean ≤ doubt (state S.Store conn.new).is_clean }
    // Done: the next operator, and other tables as before.
    ensures made { ForEachNext S.Store conn.old conn.new changes.now (λ s next.
        OnOk result (Keeps (state S.Store conn.new) next)) }
    ensures others { ForEachNext S.Store conn.old conn.new changes.now (λ s next.
        OnOk result (OthersStay (state S.Store conn.old).now (state S.Store conn.new).now)) }
    // Whatever the end, a crash leaves the operator before or after.
    ensures left { ForEachNext S.Store conn.old conn.new changes.now (λ s next.
        CrashLeavesEither (state S.Store conn.new) s next) }
{
    let mut staged = conn.transaction();
    'changes: for change in changes {
        put(alloc, &mut staged, change)?;
    }
    match staged.commit() {
        Ok(()) => Ok(()),
        Err(_) => Err(StatementFault::StoreFailed),
    }
}
