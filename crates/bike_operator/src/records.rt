//! The records of the operator: bicycles and where they are, rentals, orders.

use bike_fields::{
    BicycleNumber, DockNumber, Ident, OrderNumber, OrderQuantity, RentalNumber, RiderNumber,
    TruckNumber,
};
use bike_fixed::{Cents, Moment};
use bike_texts::OrderEnd;

/// What a bicycle is good for.
#[derive(Clone, Copy, Debug, PartialEq, Eq)]
pub enum BikeState {
    /// It can be rented.
    Fit,
    /// It can't be rented until it is marked as fit.
    Disabled,
    /// It stays in the depot for good.
    Retired,
}

/// Where a bicycle is. The place rule: each is in exactly one place.
#[derive(Drop)]
pub enum Place {
    /// In a dock of a station.
    Dock {
        station: Ident,
        dock: DockNumber,
    },
    /// In an open rental.
    Rental {
        rental: RentalNumber,
    },
    /// On a truck, for an open order.
    Truck {
        truck: TruckNumber,
        order: OrderNumber,
    },
    /// In the depot.
    Depot,
}

/// A bicycle.
#[derive(Drop)]
pub struct Bike {
    /// Its vehicle type.
    pub type_id: Ident,
    /// What it is good for.
    pub state: BikeState,
    /// Where it is.
    pub place: Place,
}

/// How a rental was closed.
#[derive(Drop)]
pub struct Closing {
    /// The station at which it ended; none where the bicycle was recovered.
    pub to_station: Option<Ident>,
    /// When it ended.
    pub finish: Moment,
    /// Its fare.
    pub fare: Cents,
}

/// A rental.
#[derive(Drop)]
pub struct Rental {
    /// Who rides.
    pub rider: RiderNumber,
    /// The bicycle.
    pub bike: BicycleNumber,
    /// The pricing plan that the bicycle's type had when the rental began.
    pub plan: Ident,
    /// The station at which it began.
    pub from_station: Ident,
    /// When it began.
    pub start: Moment,
    /// How it was closed; none while it is open.
    pub closing: Option<Closing>,
}

/// An order of a truck to bring bicycles from one end to the other.
#[derive(Drop)]
pub struct Order {
    /// The truck.
    pub truck: TruckNumber,
    /// Where the bicycles are taken from.
    pub from_end: OrderEnd,
    /// Where they are brought to.
    pub to_end: OrderEnd,
    /// The vehicle type of the bicycles.
    pub type_id: Ident,
    /// How many bicycles.
    pub count: OrderQuantity,
    /// How many were brought.
    pub delivered: u32,
    /// Whether it is open.
    pub is_open: bool,
}
