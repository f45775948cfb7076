//! The laws.

ghost use Rattle.bike_operator.specs.Sound.{IsCatalogueSound, AreNamesSound, AreBikesSound, AreOrdersSound};
ghost use Rattle.bike_laws.specs.SingleSteps.Accepted.{AcceptedKeeps};

/// The law that an accepted command keeps the system, plans, types, regions, stations and broken docks sound.
pub fn keeps_catalogue()
    ensures { AcceptedKeeps IsCatalogueSound }
{}

/// The law that an accepted command keeps names in further languages sound: what has one is there, and has few.
pub fn keeps_names()
    ensures { AcceptedKeeps AreNamesSound }
{}

/// The law that an accepted command keeps the bicycles sound: each is in one place, which is there.
pub fn keeps_bikes()
    ensures { AcceptedKeeps AreBikesSound }
{}

/// The law that an accepted command keeps trucks and orders sound: none holds too many bicycles.
pub fn keeps_orders()
    ensures { AcceptedKeeps AreOrdersSound }
{}
