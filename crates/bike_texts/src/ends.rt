//! The ends of an order, and where a bicycle is unloaded.

ghost use Rattle.std.specs.Prelude.{◌≡◌, IfOk, IfErr};
ghost use Rattle.bike_texts.specs.Reading.{HasIdent, HoldsIdent, end_meant};

use bike_fields::{Ident, MOST_DOCKS};
use bike_fixed::Within;
use std::alloc::{AllocError, Global};

/// The dock of a station at which a bicycle is unloaded, or 0 at the depot.
pub type UnloadDock = Within<0, MOST_DOCKS>;

/// An end of an order: where its bicycles are taken from or brought to.
#[derive(Debug, Drop)]
pub enum OrderEnd {
    /// The depot, written `*`.
    Depot,
    /// The station of that identifier.
    Station(Ident),
}

/// An end of an order as its text names it, before it has memory of its own.
#[derive(Clone, Copy, Debug)]
pub enum EndName<'a> {
    /// The depot.
    Depot,
    /// The station of that identifier.
    Station(&'a str),
}

impl<'a> EndName<'a> {
    /// The end, with memory of its own; an error where memory was refused, never of the depot.
    pub fn keep(self, alloc: Global) -> Result<OrderEnd, AllocError>
        requires { HasIdent self }
        ensures value { IfOk result (λ end. end ≡ end_meant self.entry) }
        ensures spared { IfErr result (λ _. HoldsIdent (end_meant self.entry)) }
    {
        match self {
            EndName::Depot => Ok(OrderEnd::Depot),
            EndName::Station(station) => Ok(OrderEnd::Station(Ident::of(alloc, station)?)),
        }
    }
}

/// The end of an order at which a bicycle is unloaded.
#[derive(Clone, Copy, Debug, PartialEq, Eq)]
pub enum Side {
    /// Where the order takes its bicycles from.
    From,
    /// Where it brings them to.
    To,
}
