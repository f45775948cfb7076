//! The laws. What acts in a list of sessions is one list of requests, so what holds of each list holds of it.

ghost use Rattle.std.specs.Prelude.{◌≡◌, ◌++◌, ◌∷◌, List, length, take, drop};
ghost use Rattle.bike_operator.specs.Operator.{Operator, no_operator};
ghost use Rattle.bike_operator.specs.Sound.{IsSound};
ghost use Rattle.bike_operator.specs.Runs.{Call, after, replies};
ghost use Rattle.bike_laws.specs.History.{accepted_of, last_moment_of, IsInOrder, IsServedAgain, IsMadeAgain};
ghost use Rattle.bike_laws.specs.Sessions.{Session, IsSession, AreCallsOf, all_calls, after_sessions, AcceptsOnce};
ghost use Rattle.bike_laws.specs.Sessions.{AnswersAgain, RefusesOthers, LeavesRetriesOut};

/// The law of acceptance: of all requests with one caller and key, in whichever sessions they come, at most one is
/// accepted.
pub fn once_law()
    ensures { (s : Operator) (xs : List Session) → AcceptsOnce s xs }
{}

/// The law of retries: once a request was accepted in some session, a request with its caller and key changes nothing,
/// later in the session or in any that follows. With an equal command it is answered as the first was, and with another
/// it is refused.
pub fn retry_law()
    ensures again { (s : Operator) (xs : List Session) → AnswersAgain s xs }
    ensures reused { (s : Operator) (xs : List Session) → RefusesOthers s xs }
{}

/// The law of lists without retries: requests whose caller and key are kept when they come can be left out of all
/// sessions.
pub fn without_retries_law()
    ensures { (s : Operator) (xs : List Session) → LeavesRetriesOut s xs }
{}

/// The law of answers: what was answered in a session are the replies to its first requests among those of all
/// sessions.
pub fn answers_law()
    ensures { (s : Operator) (xs ys : List Session) (x : Session) → IsSession x
        → take x.answered (replies (after_sessions s xs) x.calls)
        ≡ take x.answered (drop (length (all_calls xs)) (replies s (all_calls (xs ++ x ∷ ys)))) }
{}

/// The law of the history: a list adds to an operator's history the requests that are accepted, in order. Served at the
/// moments that they have there they lead to the operator after the list, and each is answered as it was. So a copy of
/// a database that is served what was accepted since stands where the first one stands, and the whole history of an
/// operator, from the first request on, makes it again. No moment that is added lies before an earlier one, and the
/// last is the operator's.
pub fn history_law()
    ensures again { (s : Operator) (cs : List Call) → IsServedAgain s cs }
    ensures whole { (cs : List Call) → IsMadeAgain (after no_operator cs) }
    ensures order { (s : Operator) (cs : List Call) → IsInOrder s.now (accepted_of s cs) }
    ensures last { (s : Operator) (cs : List Call) → (after s cs).now ≡ last_moment_of s.now (accepted_of s cs) }
{}

/// The law of soundness: the sessions of a sound operator leave a sound one.
pub fn sound_law()
    ensures { (s : Operator) (xs : List Session) → AreCallsOf xs → IsSound s → IsSound (after_sessions s xs) }
{}
