//! What the definition of an input's response means.

ghost use Rattle.std.specs.Prelude.{◌≡◌, ℕ, List, Some};
ghost use Rattle.bike_operator.specs.Operator.{Operator};
ghost use Rattle.bike_http.specs.Exchange.{Response, Answers};

use bike_feed_texts::Feed;

/// An input has one response, and one operator is after it: they are settled by its bytes, the operator and the moment.
pub fn answered_once(_example: Feed)
    ensures { (input : List ℕ) (s : Operator) (t : ℕ) (response other : Response) (next then : Operator)
        → Answers (Some input) s t response next → Answers (Some input) s t other then
        → (response ≡ other) × (next ≡ then) }
{}
