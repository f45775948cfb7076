//! Laws of views, of the ledger's room and of replies.

ghost use Rattle.std.specs.Prelude.{◌≡◌, ◌≤◌, ◌<◌, ◌+◌, ℕ, None, false};
ghost use Rattle.std.specs.FinMap.{len};
ghost use Rattle.bike_commands.specs.declared.command.Command.{Command};
ghost use Rattle.bike_commands.specs.Commands.{IsCommand};
ghost use Rattle.bike_operator.specs.declared.limits.TheConstants.{MOST_BIKES, MOST_ENTRIES};
ghost use Rattle.bike_operator.specs.Operator.{Operator, last_number};
ghost use Rattle.bike_operator.specs.Counts.{open_rentals};
ghost use Rattle.bike_operator.specs.View.{view_of, has_full_ledger};
ghost use Rattle.bike_operator.specs.Steps.{refusal_of, reply_of};
ghost use Rattle.bike_operator.specs.Sound.{IsSound};
ghost use Rattle.bike_operator.specs.Bounds.{IsBounded};
ghost use Rattle.bike_laws.specs.Answers.{IsAcceptance};

/// The law of views: the numbers of a view of a sound operator are bounded.
pub fn view_law()
    ensures { (s : Operator) (now : ℕ) (c : Command) → IsSound s
        → IsCommand c → s.now ≤ now → IsBounded (view_of s c) now }
{}

/// The law of the ledger's room: a sound operator has no more open rentals than bicycles, so that few entries leave
/// room without a count of open rentals.
pub fn ledger_room_law()
    ensures bikes { (s : Operator) → IsSound s → open_rentals s ≤ len s.bikes }
    ensures few { (s : Operator) → IsSound s → open_rentals s ≤ MOST_BIKES }
    ensures room { (s : Operator) → IsSound s → last_number s.entries + MOST_BIKES < MOST_ENTRIES
        → has_full_ledger s ≡ false }
{}

/// The law of replies: an accepted command of a sound operator is answered by a reply of the program, which
/// isn't a refusal.
pub fn reply_law()
    ensures { (s : Operator) (now : ℕ) (c : Command) → IsSound s → IsCommand c → refusal_of s c ≡ None → s.now ≤ now
        → IsAcceptance (reply_of s now c) }
{}
