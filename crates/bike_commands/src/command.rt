//! Commands: what a request asks the operator to do.

use bike_catalogue::{Plan, Region, Settings, Station, System, VehicleType};
use bike_fields::{
    BicycleNumber, DockCount, DockNumber, Ident, Language, Name, NameKind, OrderNumber,
    OrderQuantity, Payment, Position, RentalNumber, RiderNumber, TruckCapacity, TruckNumber,
};
use bike_texts::{OrderEnd, Side, UnloadDock};

/// What a request asks for. Its fields keep their bounds by their types.
#[derive(Drop)]
pub enum Command {
    /// Sets the system, once.
    SetSystem(System),
    /// Adds a pricing plan. Its name and its description alone may change.
    AddPlan(Plan),
    /// Adds a vehicle type with its default plan.
    AddType(VehicleType),
    /// Changes the default plan of a vehicle type.
    SetPlan {
        type_id: Ident,
        plan: Ident,
    },
    /// Adds a station that is installed, renting and returning, with all docks working.
    AddStation(Station),
    /// Sets the three flags of a station.
    SetStation {
        station: Ident,
        installed: bool,
        renting: bool,
        returning: bool,
    },
    /// Marks a dock as broken or working.
    MarkDock {
        station: Ident,
        dock: DockNumber,
        broken: bool,
    },
    /// Adds a bicycle, which is fit and in the depot.
    AddBike {
        bike: BicycleNumber,
        type_id: Ident,
    },
    /// Marks a bicycle as disabled or fit.
    MarkBike {
        bike: BicycleNumber,
        disabled: bool,
    },
    /// Retires a bicycle for good.
    RetireBike {
        bike: BicycleNumber,
    },
    /// Adds a truck.
    AddTruck {
        truck: TruckNumber,
        capacity: TruckCapacity,
    },
    /// Adds a rider, who is open and has a balance of 0.
    AddRider {
        rider: RiderNumber,
    },
    /// Blocks a rider, or lets the rider ride again.
    SetRider {
        rider: RiderNumber,
        blocked: bool,
    },
    /// Adds an amount to a rider's balance.
    TopUp {
        rider: RiderNumber,
        amount: Payment,
    },
    /// Starts a rental of the bicycle in a dock.
    Start {
        rider: RiderNumber,
        station: Ident,
        dock: DockNumber,
    },
    /// Ends the rental of a bicycle, at a dock.
    End {
        bike: BicycleNumber,
        station: Ident,
        dock: DockNumber,
    },
    /// Closes a rental whose bicycle was brought to the depot.
    Recover {
        rental: RentalNumber,
    },
    /// Gives an amount of a rental's fare back to its rider.
    Refund {
        rental: RentalNumber,
        amount: Payment,
    },
    /// Opens an order of a truck, to bring so many bicycles of a type from one end to the other.
    OpenOrder {
        truck: TruckNumber,
        from_end: OrderEnd,
        to_end: OrderEnd,
        type_id: Ident,
        count: OrderQuantity,
    },
    /// Loads a bicycle on a truck for an order.
    Load {
        truck: TruckNumber,
        order: OrderNumber,
        bike: BicycleNumber,
    },
    /// Unloads a bicycle from a truck at an end of its order.
    Unload {
        truck: TruckNumber,
        order: OrderNumber,
        bike: BicycleNumber,
        side: Side,
        dock: UnloadDock,
    },
    /// Closes an order.
    CloseOrder {
        order: OrderNumber,
    },
    /// Adds a region.
    AddRegion(Region),
    /// Puts a station into a region, or into none.
    SetRegion {
        station: Ident,
        region: Option<Ident>,
    },
    /// Adds a name in a further language to what has one.
    AddName {
        kind: NameKind,
        id: Ident,
        language: Language,
        name: Name,
    },
    /// Changes a name that is there, in the system's language or in a further one.
    SetName {
        kind: NameKind,
        id: Ident,
        language: Language,
        name: Name,
    },
    /// Removes a name in a further language.
    RemoveName {
        kind: NameKind,
        id: Ident,
        language: Language,
    },
    /// Changes what of the system may change.
    ChangeSystem(Settings),
    /// Moves a station to another position.
    MoveStation {
        station: Ident,
        position: Position,
    },
    /// Adds docks to a station, which are empty and work, numbered on from those that it has.
    AddDocks {
        station: Ident,
        count: DockCount,
    },
}
