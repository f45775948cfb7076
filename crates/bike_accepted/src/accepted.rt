//! What is answered and made of an accepted command.

ghost use Rattle.std.specs.Prelude.{◌≡◌, Some, None};
ghost use Rattle.bike_commands.specs.declared.reply.Reply.TheVariants.{Done};

use crate::change::Change;
use crate::movement::Movement;
use bike_commands::{Refusal, Reply};
use bike_fixed::Cents;
use bike_ledger::Entry;

/// An entry that is booked, with the numbers after it.
#[derive(Clone, Copy)]
pub struct BookedEntry {
    /// The entry.
    pub entry: Entry,
    /// Its rider's balance after it.
    pub balance: Cents,
    /// For a refund, what of its rental is refunded after it.
    pub refunded: Option<Cents>,
}

/// An accepted command: its reply, and what it makes.
#[derive(Clone, Copy)]
pub struct Accepted<'a> {
    /// What is answered.
    pub reply: Reply,
    /// What is put or marked at a dock, or put elsewhere.
    pub moved: Option<Movement<'a>>,
    /// What other record is put, added or removed.
    pub change: Option<Change<'a>>,
    /// The entry that is added; none where no money moves.
    pub entry: Option<BookedEntry>,
}

/// A decision: what is accepted, or why it is refused.
pub type Decision<'a> = Result<Accepted<'a>, Refusal>;

impl<'a> Accepted<'a> {
    /// What is answered as done, and makes nothing.
    pub fn done() -> Accepted<'a>
        ensures { result ≡ record { reply = Done; moved = None; change = None; entry = None } }
    {
        Accepted {
            reply: Reply::Done,
            moved: None,
            change: None,
            entry: None,
        }
    }

    /// What is answered as done, and puts a bicycle or marks a dock.
    pub fn moved(moved: Movement<'a>) -> Accepted<'a>
        ensures { result ≡ record { reply = Done; moved = Some moved.entry; change = None; entry = None } }
    {
        Accepted {
            reply: Reply::Done,
            moved: Some(moved),
            change: None,
            entry: None,
        }
    }
}
