//! What the definition of an input's question means.

ghost use Rattle.std.specs.Prelude.{◌≡◌, ℕ, List};
ghost use Rattle.bike_http_request.specs.Asked.{Asks};
ghost use Rattle.bike_http_request.specs.declared.action.Action.{Action as ActionValue};

use bike_feed_texts::Feed;

/// An input asks for one thing alone: it is settled by the bytes, and not by how they were cut into reads.
pub fn asked_once(_example: Feed)
    ensures { (input : List ℕ) (asked other : ActionValue) → Asks input asked → Asks input other → asked ≡ other }
{}
