//! Statements on a connection inside a transaction that texts open and end.
//!
//! The engine's `Transaction` keeps its connection to itself, so that only its own calls end it. Here the transaction
//! is the connection's, which goes on serving whoever takes a connection: a reader that judges what the transaction
//! would commit, say. Whoever begins one ends it, by `commit` or `undo`.

ghost use Rattle.std.specs.Prelude.{◌≡◌, false, true, IsTrue, OnOk, OnErr};
ghost use Rattle.sqlite.specs.Held.{state};
ghost use Rattle.sqlite.specs.State.{HasCleanDisk, IsLive, Shows, Survives};
ghost use Rattle.bike_sql.specs.Outcome.{IsLeft};
ghost use Rattle.bike_sql.specs.Inside.{IsEnded};

use sqlite::{Alter, Connection, Error};

/// That the database of a connection obeys its schema, which is so of every connection: for a proof, since it computes
/// nothing.
pub fn obeys_schema<S: Alter>(conn: &Connection<S>)
    ensures { IsLive (state S.Store conn.now) }
{
    let _ = conn.schema();
}

/// That a connection outside a transaction has nothing that waits for a commit, and that its database obeys its schema:
/// for a proof, since it computes nothing.
pub fn is_at_rest<S: Alter>(conn: &Connection<S>)
    requires { conn.now.in_transaction ≡ false }
    ensures settled { IsTrue (state S.Store conn.now).is_open
        → (state S.Store conn.now).now ≡ (state S.Store conn.now).committed }
    ensures live { IsLive (state S.Store conn.now) }
{
    let _ = conn.is_autocommit();
    obeys_schema(conn);
}

/// Begins a transaction, on a connection that is in none. After an error it may be in none still.
pub fn begin<S: Alter>(conn: &mut Connection<S>) -> Result<(), Error>
    ensures begun { HasCleanDisk (state S.Store conn.new)
        → OnOk result (Shows (state S.Store conn.old) (state S.Store conn.new)
        (state S.Store conn.old).now (state S.Store conn.old).committed true) }
    ensures refused { HasCleanDisk (state S.Store conn.new)
        → OnErr result (IsLeft (state S.Store conn.old) (state S.Store conn.new)) }
    ensures survives { Survives (state S.Store conn.old) (state S.Store conn.new) (λ _. ⊥) }
{
    conn.execute("BEGIN", &[])?;
    Ok(())
}

/// Commits the connection's transaction. An error says nothing of whether it was committed.
pub fn commit<S: Alter>(conn: &mut Connection<S>) -> Result<(), Error>
    ensures committed { HasCleanDisk (state S.Store conn.new)
        → OnOk result (Shows (state S.Store conn.old) (state S.Store conn.new)
        (state S.Store conn.old).now (state S.Store conn.old).now false) }
    ensures refused { HasCleanDisk (state S.Store conn.new)
        → OnErr result (IsLeft (state S.Store conn.old) (state S.Store conn.new)) }
    ensures survives { Survives (state S.Store conn.old) (state S.Store conn.new) (λ db. db
        ≡ (state S.Store conn.old).now.trees) }
{
    conn.execute("COMMIT", &[])?;
    Ok(())
}

/// Undoes the connection's transaction, if it is in one. After an error nothing is undone but by the engine itself, and
/// no transaction is open either; nothing is committed in any case.
pub fn undo<S: Alter>(conn: &mut Connection<S>) -> Result<(), Error>
    ensures undone { HasCleanDisk (state S.Store conn.new)
        → OnOk result (IsEnded (state S.Store conn.old) (state S.Store conn.new)) }
    ensures ended { HasCleanDisk (state S.Store conn.new) → conn.new.in_transaction ≡ false }
    ensures refused { HasCleanDisk (state S.Store conn.new)
        → OnErr result (IsLeft (state S.Store conn.old) (state S.Store conn.new)) }
    ensures survives { Survives (state S.Store conn.old) (state S.Store conn.new) (λ _. ⊥) }
{
    if conn.is_autocommit() {
        return Ok(());
    }
    conn.execute("ROLLBACK", &[])?;
    Ok(())
}
