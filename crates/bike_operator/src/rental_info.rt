//! A rental, and how it was closed.

use bike_fields::{BicycleNumber, Ident, RiderNumber};
use bike_fixed::{Cents, Moment};

/// How a rental was closed, and what was paid back of its fare.
#[derive(Drop)]
pub struct ClosingInfo {
    /// The station at which it ended; none where the bicycle was recovered.
    pub to_station: Option<Ident>,
    /// When it ended.
    pub finish: Moment,
    /// Its fare.
    pub fare: Cents,
    /// The sum of its refunds.
    pub refunded: Cents,
}

/// A rental.
#[derive(Drop)]
pub struct RentalInfo {
    /// Who rides.
    pub rider: RiderNumber,
    /// The bicycle.
    pub bike: BicycleNumber,
    /// The pricing plan that the bicycle's type had when the rental began.
    pub plan: Ident,
    /// The station at which it began.
    pub from_station: Ident,
    /// When it began.
    pub start: Moment,
    /// How it was closed; none while it is open.
    pub closing: Option<ClosingInfo>,
}
