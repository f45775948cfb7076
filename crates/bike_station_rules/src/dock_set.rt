//! A set of docks of one station.

ghost use Rattle.std.specs.Prelude.{◌≡◌, ◌≤◌, Some, true, false, not, ◌&&◌, replicate};
ghost use Rattle.bike_station_rules.specs.declared.dock_set.TheConstants.{PLACES};
ghost use Rattle.bike_station_rules.specs.DockSets.{has_bit, with_bit, many_in, many_in_neither};

use bike_fields::{DockCount, DockNumber, MOST_DOCKS};
use std::marker::Model;

/// The docks of a station have these places by their numbers, of which 0 is no dock's.
pub(crate) const PLACES: usize = MOST_DOCKS as usize + 1;

/// A set of docks of one station.
#[derive(Drop)]
pub(crate) struct DockSet {
    /// Whether it has the dock of that number.
    has: [bool; PLACES],
}

impl Model for DockSet {
    ghost use Rattle.std.specs.Prelude.{List, Bool};

    ghost Value = { List Bool };

    ghost view = { λ a. a.has };
}

impl DockSet {
    /// No dock.
    pub(crate) fn new() -> DockSet
        ensures { result ≡ replicate PLACES false }
    {
        DockSet {
            has: [false; PLACES],
        }
    }

    /// Puts the dock into the set.
    pub(crate) fn put(&mut self, dock: DockNumber)
        ensures { self.new ≡ with_bit (Some dock) self.old }
    {
        let at = dock.get() as usize;
        self.has[at] = true;
    }

    /// Whether the dock is in the set.
    pub(crate) fn has(&self, dock: DockNumber) -> bool
        ensures { result ≡ has_bit self.now dock }
    {
        has_dock(&self.has, dock.get())
    }

    /// How many of so many first docks are in the set.
    pub(crate) fn count(&self, docks: DockCount) -> u32
        ensures { result ≡ many_in self.now docks }
    {
        count_in(&self.has, docks.get())
    }

    /// How many of so many first docks are neither in this set nor in the other.
    pub(crate) fn count_others(&self, other: &DockSet, docks: DockCount) -> u32
        ensures { result ≡ many_in_neither self.now other.now docks }
    {
        count_in_neither(&self.has, &other.has, docks.get())
    }
}

/// Whether the dock of that number is in the set.
fn has_dock(set: &[bool; PLACES], dock: u32) -> bool
    ensures { result ≡ has_bit set.now dock }
{
    match set.get(dock as usize) {
        Some(has) => *has,
        None => false,
    }
}

/// How many of so many first docks are in the set.
fn count_in(set: &[bool; PLACES], docks: u32) -> u32
    ensures { result ≡ many_in set.now docks }
{
    let mut many: u32 = 0;
    let mut dock: u32 = 0;
    while dock < docks {
        dock += 1;
        if has_dock(set, dock) {
            many += 1;
        }
    }
    many
}

/// Whether the dock of that number is in neither of the sets.
fn is_in_neither(first: &[bool; PLACES], second: &[bool; PLACES], dock: u32) -> bool
    ensures { result ≡ (not (has_bit first.now dock) && not (has_bit second.now dock)) }
{
    !has_dock(first, dock) && !has_dock(second, dock)
}

/// How many of so many first docks are in neither of the sets.
fn count_in_neither(first: &[bool; PLACES], second: &[bool; PLACES], docks: u32) -> u32
    ensures { result ≡ many_in_neither first.now second.now docks }
{
    let mut many: u32 = 0;
    let mut dock: u32 = 0;
    while dock < docks {
        dock += 1;
        if is_in_neither(first, second, dock) {
            many += 1;
        }
    }
    many
}
