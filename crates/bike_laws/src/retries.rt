//! The laws of retries.

ghost use Rattle.std.specs.Prelude.{◌≡◌, ◌≤◌, ◌++◌, ◌∷◌, ℕ, List, true, false, Some};
ghost use Rattle.bike_commands.specs.declared.reply.Reply.TheVariants.{Refused};
ghost use Rattle.bike_commands.specs.declared.refusal.Refusal.TheVariants.{KeyReused};
ghost use Rattle.bike_commands.specs.declared.request.Request.{Request};
ghost use Rattle.bike_operator.specs.Operator.{Operator, AcceptedRequest, Key, key_in};
ghost use Rattle.bike_operator.specs.Runs.{Call, is_same, step, after};
ghost use Rattle.bike_laws.specs.Retries.{is_kept, is_accepted, acceptance, Keeps};
ghost use Rattle.bike_laws.specs.Retries.{times_accepted, without_retries};

/// The law of what is kept: an accepted request is kept under its caller and key with its moment, its command and its
/// reply, and what is kept stays so.
pub fn kept_law()
    ensures first { (s : Operator) (t : ℕ) (q : Request) → is_accepted s q ≡ true
        → Keeps (step s t q).1 (acceptance s t q) }
    ensures on { (s : Operator) (cs : List Call) (a : AcceptedRequest) → Keeps s a → Keeps (after s cs) a }
{}

/// The law of acceptance: of all requests with one caller and key at most one is accepted.
pub fn once_law()
    ensures { (s : Operator) (key : Key) (cs : List Call) → times_accepted s key cs ≤ 1 }
{}

/// The law of retries: once a request was accepted, a request with its caller and key changes nothing. With an
/// equal command it is answered as the first was, and with another it is refused.
pub fn retry_law()
    ensures again { (s : Operator) (t u : ℕ) (q p : Request) (cs : List Call)
        → is_accepted s q ≡ true → key_in p ≡ key_in q → is_same q.command p.command ≡ true
        → step (after (step s t q).1 cs) u p ≡ ((step s t q).0, after (step s t q).1 cs) }
    ensures reused { (s : Operator) (t u : ℕ) (q p : Request) (cs : List Call)
        → is_accepted s q ≡ true → key_in p ≡ key_in q → is_same q.command p.command ≡ false
        → step (after (step s t q).1 cs) u p ≡ (Refused KeyReused, after (step s t q).1 cs) }
{}

/// The law of lists without retries: requests whose caller and key are kept when they come can be left out, one
/// of them or all.
pub fn without_retries_law()
    ensures one { (s : Operator) (cs ds : List Call) (c : Call) → is_kept (after s cs) c.1 ≡ true
        → after s (cs ++ c ∷ ds) ≡ after s (cs ++ ds) }
    ensures all { (s : Operator) (cs : List Call) → after s (without_retries s cs) ≡ after s cs }
{}
