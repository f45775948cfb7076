//! What a bicycle adds to the numbers of its dock's station, and the numbers when that changes.

ghost use Rattle.std.specs.Prelude.{◌≡◌, ◌≤◌, ◌&&◌, not};
ghost use Rattle.bike_operator.specs.Changes.{place_of};
ghost use Rattle.bike_operator.specs.Counts.{is_fit};
ghost use Rattle.bike_laws.specs.SingleSteps.Laws.{one, dock_shares, place_shares};
ghost use Rattle.bike_booking.specs.Put.{moved_by};

use bike_accepted::BikeStatus;
use bike_fields::MOST_DOCKS;
use bike_operator::{BikeState, NewPlace};
use std::marker::Model;

/// What one bicycle adds: to the working docks that are taken, to the bicycles of its type that can be rented, and to
/// those that can't. Each is 0 or 1.
#[derive(Clone, Copy)]
pub(crate) struct BikeShares {
    occupied: u32,
    available: u32,
    disabled: u32,
}

impl Model for BikeShares {
    ghost use Rattle.std.specs.Prelude.{◌≤◌};
    ghost use Rattle.bike_laws.specs.SingleSteps.Laws.{Shares};

    ghost Value = { Shares };

    ghost view = { λ a. record { occupied = a.occupied; available = a.available; disabled = a.disabled } };

    ghost invariant = { λ a. (a.occupied ≤ 1) × (a.available ≤ 1) × (a.disabled ≤ 1) };

    ghost inverse = { λ z. record { occupied = z.occupied; available = z.available; disabled = z.disabled } };
}

impl BikeShares {
    /// What a bicycle adds in a dock.
    pub(crate) fn in_dock(is_broken: bool, state: BikeState) -> BikeShares
        ensures { result ≡ dock_shares is_broken state }
    {
        let is_available = is_fit(state) && !is_broken;
        BikeShares {
            occupied: one(!is_broken),
            available: one(is_available),
            disabled: one(!is_available),
        }
    }

    /// What a bicycle adds where it stands: where that is a dock, one that is broken, or works.
    pub(crate) fn of(is_broken: bool, standing: &BikeStatus) -> BikeShares
        ensures { result ≡ place_shares is_broken standing.now.state (place_of standing.now.place) }
    {
        match standing.place {
            NewPlace::Dock { .. } => BikeShares::in_dock(is_broken, standing.state),
            NewPlace::Rental { .. } | NewPlace::Truck { .. } | NewPlace::Depot => BikeShares {
                occupied: 0,
                available: 0,
                disabled: 0,
            },
        }
    }

    /// To the working docks that are taken.
    pub(crate) fn occupied(&self) -> u32
        ensures value { result ≡ self.now.occupied }
        ensures small { result ≤ 1 }
    {
        self.occupied
    }

    /// To the bicycles of its type that can be rented.
    pub(crate) fn available(&self) -> u32
        ensures value { result ≡ self.now.available }
        ensures small { result ≤ 1 }
    {
        self.available
    }

    /// To those that can't.
    pub(crate) fn disabled(&self) -> u32
        ensures value { result ≡ self.now.disabled }
        ensures small { result ≤ 1 }
    {
        self.disabled
    }
}

/// Whether a bicycle can be rented.
fn is_fit(state: BikeState) -> bool
    ensures { result ≡ is_fit state }
{
    match state {
        BikeState::Fit => true,
        BikeState::Disabled | BikeState::Retired => false,
    }
}

/// 1 for what passes.
pub(crate) fn one(passes: bool) -> u32
    ensures value { result ≡ one passes }
    ensures small { result ≤ 1 }
{
    if passes { 1 } else { 0 }
}

/// A stored number with what is added now, and without what was added.
pub(crate) fn moved_by(number: u32, less: u32, more: u32) -> u32
    requires stored { number ≤ MOST_DOCKS }
    requires small { more ≤ 1 }
    ensures { result ≡ moved_by number less more }
{
    (number + more).saturating_sub(less)
}
