//! The laws.

ghost use Rattle.std.specs.Prelude.{◌≡◌, ◌+◌, ℕ, List, Bool};
ghost use Rattle.bike_operator.specs.declared.records.Bike.{Bike};
ghost use Rattle.bike_operator.specs.Operator.{Operator};
ghost use Rattle.bike_operator.specs.Counts.{docks_available, docks_broken};
ghost use Rattle.bike_operator.specs.Sound.{AreBikesSound};
ghost use Rattle.bike_laws.specs.SingleSteps.Numbers.{occupied_docks};
ghost use Rattle.bike_laws.specs.SingleSteps.Laws.{IsMarkedAt, ShareLaw, HasDocks, HasPut};
ghost use Rattle.bike_laws.specs.SingleSteps.Laws.{PutLaw, PutDocksLaw, HasMarked};
ghost use Rattle.bike_laws.specs.SingleSteps.Laws.{MarkLaw};

/// The law of shares: what a bicycle adds to the numbers of stations, by its state and place.
pub fn share_law()
    ensures { (s : Operator) (at : List ℕ) (broken : Bool) (b : Bike) → IsMarkedAt s at broken b.place
        → ShareLaw s at broken b }
{}

/// The law of docks: where the bicycles are sound, each dock of a station is available, or works and holds a
/// bicycle, or is broken.
pub fn docks_law()
    ensures { (s : Operator) (station : List ℕ) (docks : ℕ) → AreBikesSound s → HasDocks s station docks
        → docks_available s station docks + occupied_docks s station + docks_broken s station docks ≡ docks }
{}

/// The law of a bicycle put under its number: one that is new, or that was in another place, or that was in this
/// place in another state.
pub fn put_law()
    ensures numbers { (s next : Operator) (number : ℕ) (b : Bike) → HasPut s next number b
        → PutLaw s next number b }
    ensures docks { (s next : Operator) (number : ℕ) (b : Bike) → HasPut s next number b → AreBikesSound s
        → AreBikesSound next → PutDocksLaw s next number b }
{}

/// The law of a dock marked as broken or as working.
pub fn mark_law()
    ensures { (s next : Operator) (station : List ℕ) (dock : ℕ) (broken : Bool)
        → HasMarked s next station dock broken → AreBikesSound s → MarkLaw s next station dock broken }
{}
