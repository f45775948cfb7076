//! The laws.

ghost use Rattle.std.specs.Prelude.{◌≡◌, ◌≤◌, ◌++◌, ℕ, List};
ghost use Rattle.bike_fixed.specs.Whole.{last_moment};
ghost use Rattle.bike_commands.specs.declared.request.Request.{Request};
ghost use Rattle.bike_commands.specs.Requests.{IsRequest};
ghost use Rattle.bike_operator.specs.Operator.{Operator, no_operator};
ghost use Rattle.bike_laws.specs.Archiving.{Front, MayArchive, archived, AreOthers, ShowsNothing, KeepsSums};
ghost use Rattle.bike_laws.specs.Money.{KeepsMoney};
ghost use Rattle.bike_laws.specs.SingleSteps.Accepted.{AcceptedKeeps};
ghost use Rattle.bike_operator.specs.Sound.{IsSound, AreRentalsSound, IsLedgerSound, AreCalls};
ghost use Rattle.bike_operator.specs.Runs.{Call, step, after, replies};

/// The law of the ledger: an accepted command leaves riders and entries sound, whatever is kept.
pub fn keeps_ledger()
    ensures { AcceptedKeeps IsLedgerSound }
{}

/// The law of rentals: an accepted command leaves rentals sound, whatever is kept.
pub fn keeps_rentals()
    ensures { AcceptedKeeps AreRentalsSound }
{}

/// The law of soundness: a step keeps an operator sound.
pub fn keeps_soundness()
    ensures { (s : Operator) (t : ℕ) (q : Request) → t ≤ last_moment → IsRequest q → IsSound s
        → IsSound (step s t q).1 }
{}

/// The law of soundness over lists: every list of requests leaves a sound operator sound.
pub fn keeps_soundness_over_lists()
    ensures { (s : Operator) (cs : List Call) → AreCalls cs → IsSound s → IsSound (after s cs) }
{}

/// The law of money: the balances of all riders and the revenue together are the cash.
pub fn money_law()
    ensures { (s : Operator) → IsSound s → KeepsMoney s }
{}

/// The law of money over lists: after every list of requests from the operator of which nothing was asked, the
/// balances of all riders and the revenue together are the cash.
pub fn money_law_over_lists()
    ensures { (cs : List Call) → AreCalls cs
        → KeepsMoney (after no_operator cs) }
{}

/// The operator of which nothing was asked yet is sound.
pub fn no_operator_law()
    ensures { IsSound no_operator }
{}

/// The law of runs: a list that is served in two parts is served as one.
pub fn run_law()
    ensures operator { (s : Operator) (cs ds : List Call) → after s (cs ++ ds) ≡ after (after s cs) ds }
    ensures answers { (s : Operator) (cs ds : List Call)
        → replies s (cs ++ ds) ≡ replies s cs ++ replies (after s cs) ds }
{}

/// The law of archiving: where the first requests, entries and rentals of a sound operator are archived, so that no
/// rental that is open goes and no entry of one that stays, each list of requests is answered as if they were there,
/// and leaves the operator that it would leave, with the same archived. The requests are those that were not archived
/// themselves, and name no archived rental. No balance changes, nor do cash and revenue. What is left is sound.
pub fn archiving_law()
    ensures lists { (f : Front) (s : Operator) (cs : List Call) → IsSound s → MayArchive f s → AreCalls cs
        → AreOthers f s cs → ShowsNothing f s cs }
    ensures sums { (f : Front) (s : Operator) → IsSound s → MayArchive f s → KeepsSums f s }
    ensures sound { (f : Front) (s : Operator) → IsSound s → MayArchive f s → IsSound (archived f s) }
{}
