//! What a desk knows of newest rentals, for which its first start, or first look at a rider, asks.

ghost use Rattle.std.specs.Prelude.{◌≡◌, ◌≤◌, false, IsTrue, IfOk, OnOk};
ghost use Rattle.sqlite.specs.Held.{state};
ghost use Rattle.sqlite_trees.specs.View.{doubt};
ghost use Rattle.bike_schema.specs.Stands.{AllLeft, Keeps, TreesStandFor};
ghost use Rattle.bike_office_reads.specs.Newest.{NewestTells};
ghost use Rattle.bike_desk.specs.Kept.{ForEachKept};
ghost use Rattle.bike_desk.specs.Newest.{knows_newest};

use bike_commands::Command;
use bike_office_reads::newest_tells;
use bike_schema::StatementFault;
use sqlite::{Alter, Connection};

/// What is known of newest rentals.
#[derive(Clone, Copy)]
pub enum Newest {
    /// Nothing was asked yet.
    Unknown,
    /// Each open rental is its rider's newest, and stays so with every request.
    Tells,
    /// Some open rental isn't.
    Walks,
}

impl Newest {
    /// What is known where it was asked whether each open rental is its rider's newest.
    pub fn found(tells: bool) -> Newest
        ensures { knows_newest result ≡ tells }
    {
        if tells { Newest::Tells } else { Newest::Walks }
    }

    /// Whether a start may read its rider's newest rental alone.
    pub fn tells(self) -> bool
        ensures { result ≡ knows_newest self }
    {
        match self {
            Newest::Tells => true,
            Newest::Unknown | Newest::Walks => false,
        }
    }
}

/// What is known of newest rentals when the command is served: the first start asks, and no other command does. Every
/// fault is the database's.
pub fn know_newest<S: Alter>(
    conn: &mut Connection<S>,
    known: Newest,
    command: &Command,
) -> Result<Newest, StatementFault>
    requires { conn.old.in_transaction ≡ false }
    // Nothing is changed.
    ensures ended { conn.new.in_transaction ≡ false }
    ensures clean { doubt (state S.Store conn.old).is_clean ≤ doubt (state S.Store conn.new).is_clean }
    ensures keeps { ForEachKept S.Store conn.old conn.new (λ s.
        IfOk result (λ newest. Keeps (state S.Store conn.new) s)) }
    ensures same { ForEachKept S.Store conn.old conn.new (λ s.
        OnOk result ((state S.Store conn.new).now ≡ (state S.Store conn.old).now)) }
    // What is known of the newest rentals is so.
    ensures newest { ForEachKept S.Store conn.old conn.new (λ s. (IsTrue (knows_newest known) → NewestTells s)
        → IfOk result (λ newest. IsTrue (knows_newest newest) → NewestTells s)) }
    // What a failed read leaves.
    ensures left { ForEachKept S.Store conn.old conn.new (λ s. AllLeft (state S.Store conn.new) (TreesStandFor s)) }
{
    let Newest::Unknown = known else {
        return Ok(known);
    };
    let Command::Start { .. } = command else {
        return Ok(known);
    };
    if newest_tells(conn)? {
        Ok(Newest::Tells)
    } else {
        Ok(Newest::Walks)
    }
}
