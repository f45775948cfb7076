//! The view of an operator for a command: what its tests ask, and the records that its changes touch.

use crate::records::{Bike, BikeState, Order, Rental};
use bike_catalogue::Plan;
use bike_fields::{BicycleNumber, DockCount, Ident, RentalNumber, TruckCapacity};
use bike_fixed::Cents;

/// What a decision needs to know of a station.
#[derive(Clone, Copy, Debug)]
pub struct StationView {
    /// How many docks it has.
    pub docks: DockCount,
    /// Whether it stands at its place.
    pub is_installed: bool,
    /// Whether bicycles are rented there.
    pub is_renting: bool,
    /// Whether bicycles are taken back there.
    pub is_returning: bool,
}

/// The bicycle in a dock.
#[derive(Drop)]
pub struct DockedBike {
    /// Its number.
    pub bike: BicycleNumber,
    /// Its vehicle type.
    pub type_id: Ident,
    /// What it is good for.
    pub state: BikeState,
    /// The default plan of its type.
    pub plan: Ident,
}

/// What a decision needs to know of a rental.
#[derive(Drop)]
pub struct RentalView {
    /// Its number.
    pub number: RentalNumber,
    /// The rental.
    pub rental: Rental,
    /// Its pricing plan.
    pub plan: Plan,
    /// Its refunds so far.
    pub refunded: Cents,
    /// Its rider's balance.
    pub balance: Cents,
}

/// What a decision needs to know of a rider.
#[derive(Drop)]
pub struct RiderView {
    /// Whether the rider is blocked.
    pub is_blocked: bool,
    /// The rider's own plan; none where rides are charged by the plan of the bicycle's type.
    pub plan: Option<Ident>,
    /// The balance.
    pub balance: Cents,
}

/// What a decision needs to know of a truck.
#[derive(Clone, Copy, Debug)]
pub struct TruckView {
    /// How many bicycles it holds.
    pub capacity: TruckCapacity,
}

/// What a command names, each there or absent, and what is counted for it. A field that is of no use to the command is
/// `false`, none or 0.
#[derive(Drop)]
pub struct View {
    /// Whether the system is set.
    pub has_system: bool,
    /// Whether the plan is there that the command names.
    pub has_plan: bool,
    /// Whether the vehicle type is there.
    pub has_type: bool,
    /// Whether the region is there that the command names; where it names none, that one is.
    pub has_region: bool,
    /// Whether that is there whose name the command adds, changes or removes.
    pub has_named: bool,
    /// Whether it has a name in that language: the language is the system's, or one of its further ones.
    pub has_language: bool,
    /// Whether the language of a name that changes or goes is the system's.
    pub is_own_language: bool,
    /// Whether the end is there from which an order takes bicycles.
    pub has_from: bool,
    /// Whether the end is there to which it brings them.
    pub has_to: bool,
    /// Whether the rider is there who is added, blocked or opened.
    pub has_rider: bool,
    /// Whether there are as many as there may be of what the command adds.
    pub is_full: bool,
    /// Whether entries and open rentals together are as many as there may be, where the command needs one more.
    pub is_ledger_full: bool,
    /// The station.
    pub station: Option<StationView>,
    /// Whether the dock is broken that the command names, or in which the bicycle stands that it loads or marks.
    pub is_dock_broken: bool,
    /// The bicycle in the dock that the command names.
    pub docked: Option<DockedBike>,
    /// The bicycle that the command names, which for a recovery is that of the rental.
    pub bike: Option<Bike>,
    /// The rental, which for the end of one is that of its bicycle.
    pub rental: Option<RentalView>,
    /// The rider who pays in or rides.
    pub rider: Option<RiderView>,
    /// Whether the rider who starts a rental has an open one.
    pub is_riding: bool,
    /// The truck.
    pub truck: Option<TruckView>,
    /// How many bicycles are on the truck that is loaded, over all orders.
    pub loaded: u32,
    /// The order.
    pub order: Option<Order>,
    /// How many bicycles are on the truck for the order that is loaded for or closed.
    pub on_truck: u32,
    /// How many rentals there are, where one starts.
    pub rentals: u32,
    /// How many orders there are, where one is opened.
    pub orders: u32,
    /// How many entries there are, where one is booked.
    pub entries: u32,
}
