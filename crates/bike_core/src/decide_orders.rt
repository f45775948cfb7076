//! Decisions on trucks and their orders.

ghost use Rattle.std.specs.Prelude.{◌≡◌, ◌≤◌, ◌+◌, ℕ, List, Some, IfOk, IfSome};
ghost use Rattle.bike_commands.specs.declared.command.Command.TheVariants as command;
ghost use Rattle.bike_operator.specs.Steps.{first, tests};
ghost use Rattle.bike_operator.specs.Changes.{refusal_in};
ghost use Rattle.bike_accepted.specs.Effects.{DecidesOn};
ghost use Rattle.bike_accepted.specs.Found.{FindsOn};

use bike_accepted::{
    Accepted, BikeStatus, Change, Decision, end_at, ends_apart, is_at_end, is_loaded, is_retired,
    is_same_end, next_number, put_at_end, put_from, standing_of,
};
use bike_commands::{Refusal, Reply};
use bike_fields::{BicycleNumber, Ident, OrderNumber, OrderQuantity, TruckCapacity, TruckNumber};
use bike_operator::{Bike, MOST_ORDERS, NewPlace, Order, View};
use bike_texts::{OrderEnd, Side, UnloadDock};

/// Decides on a new truck.
pub(crate) fn decide_add_truck<'a>(
    view: &View,
    truck: TruckNumber,
    capacity: TruckCapacity,
) -> Decision<'a>
    ensures decides { DecidesOn view.now (command.AddTruck truck capacity) result }
    ensures found { IfOk result (FindsOn view.now (command.AddTruck truck capacity)) }
{
    if view.truck.is_some() {
        return Err(Refusal::AlreadyThere);
    }
    if view.is_full {
        return Err(Refusal::LimitReached);
    }
    let change = Change::AddTruck {
        truck: truck.get(),
        capacity: capacity.get(),
    };
    Ok(Accepted {
        change: Some(change),
        ..Accepted::done()
    })
}

/// The number of a new order, or the first refusal of it, the last of which is the limit rule's.
fn check_open_order(
    view: &View,
    from_end: &OrderEnd,
    to_end: &OrderEnd,
    count: OrderQuantity,
) -> Result<OrderNumber, Refusal>
    ensures tests { (truck : ℕ) (type_id : List ℕ) → refusal_in result
        ≡ first (tests view.now (command.OpenOrder truck from_end.now to_end.now type_id count)) }
    ensures number { IfOk result (λ n. n ≡ view.now.orders + 1) }
{
    let Some(truck) = &view.truck else {
        return Err(Refusal::UnknownTruck);
    };
    if !view.has_from || !view.has_to {
        return Err(Refusal::UnknownStation);
    }
    if is_same_end(from_end, to_end) {
        return Err(Refusal::WrongTruckOrEnds);
    }
    if !view.has_type {
        return Err(Refusal::UnknownType);
    }
    if truck.capacity.get() < count.get() {
        return Err(Refusal::TruckTooSmall);
    }
    if view.orders >= MOST_ORDERS {
        return Err(Refusal::LimitReached);
    }
    Ok(next_number(view.orders))
}

/// Decides on a new order of a truck.
pub(crate) fn decide_open_order<'a>(
    view: &View,
    truck: TruckNumber,
    from_end: &'a OrderEnd,
    to_end: &'a OrderEnd,
    type_id: &'a Ident,
    count: OrderQuantity,
) -> Decision<'a>
    ensures decides { DecidesOn view.now (command.OpenOrder truck from_end.now to_end.now type_id.now count) result }
    ensures found { IfOk result (FindsOn view.now (command.OpenOrder truck from_end.now to_end.now type_id.now count)) }
{
    let order = match check_open_order(view, from_end, to_end, count) {
        Ok(order) => order,
        Err(refusal) => return Err(refusal),
    };
    let opened = Change::AddOrder {
        order: order.get(),
        truck: truck.get(),
        from_end,
        to_end,
        type_id,
        count: count.get(),
    };
    Ok(Accepted {
        reply: Reply::Ordered { order },
        moved: None,
        change: Some(opened),
        entry: None,
    })
}

/// The bicycle that is loaded, or the first refusal of loading it. By the crew rule neither the station's flags nor the
/// dock's mark are asked for, nor whether the bicycle is fit.
fn check_load(view: &View, truck: TruckNumber) -> Result<&Bike, Refusal>
    requires { IfSome view.now.order (λ o. o.delivered + view.now.on_truck ≤ o.count) }
    ensures tests { (order bike : ℕ) → refusal_in result ≡ first (tests view.now (command.Load truck order bike)) }
    ensures bike { IfOk result (λ b. view.now.bike ≡ Some b.now) }
{
    let Some(truck_row) = &view.truck else {
        return Err(Refusal::UnknownTruck);
    };
    let Some(row) = &view.order else {
        return Err(Refusal::UnknownOrder);
    };
    if !row.is_open {
        return Err(Refusal::OrderClosed);
    }
    if row.truck.get() != truck.get() {
        return Err(Refusal::WrongTruckOrEnds);
    }
    let Some(bike) = &view.bike else {
        return Err(Refusal::UnknownBike);
    };
    if is_retired(bike.state) {
        return Err(Refusal::BikeRetired);
    }
    if !is_at_end(&row.from_end, &bike.place) {
        return Err(Refusal::WrongPlace);
    }
    if bike.type_id.as_str() != row.type_id.as_str() {
        return Err(Refusal::WrongType);
    }
    if row.count.get() <= row.delivered + view.on_truck {
        return Err(Refusal::OrderFilled);
    }
    if truck_row.capacity.get() <= view.loaded {
        return Err(Refusal::TruckFull);
    }
    Ok(bike)
}

/// Decides on loading a bicycle on a truck for an order.
pub(crate) fn decide_load<'a>(
    view: &'a View,
    truck: TruckNumber,
    order: OrderNumber,
    bike: BicycleNumber,
) -> Decision<'a>
    requires { IfSome view.now.order (λ o. o.delivered + view.now.on_truck ≤ o.count) }
    ensures decides { DecidesOn view.now (command.Load truck order bike) result }
    ensures found { IfOk result (FindsOn view.now (command.Load truck order bike)) }
{
    let row = match check_load(view, truck) {
        Ok(row) => row,
        Err(refusal) => return Err(refusal),
    };
    let place = NewPlace::Truck {
        truck: truck.get(),
        order: order.get(),
    };
    let becomes = BikeStatus {
        state: row.state,
        place,
    };
    let was = standing_of(row);
    let moved = put_from(bike.get(), &row.type_id, was, becomes, view.is_dock_broken);
    Ok(Accepted::moved(moved))
}

/// A bicycle that is unloaded, and its order.
#[derive(Clone, Copy)]
struct Unloading<'a> {
    bike: &'a Bike,
    order: &'a Order,
}

/// The bicycle that is unloaded and its order, or the first refusal of unloading it. By the crew rule the station's
/// flags are not asked for.
fn check_unload(
    view: &View,
    truck: TruckNumber,
    order: OrderNumber,
    side: Side,
    dock: UnloadDock,
) -> Result<Unloading<'_>, Refusal>
    ensures tests { (bike : ℕ)
        → refusal_in result ≡ first (tests view.now (command.Unload truck order bike side dock)) }
    ensures order { IfOk result (λ u. view.now.order ≡ Some u.order.now) }
    ensures bike { IfOk result (λ u. view.now.bike ≡ Some u.bike.now) }
{
    if view.truck.is_none() {
        return Err(Refusal::UnknownTruck);
    }
    let Some(row) = &view.order else {
        return Err(Refusal::UnknownOrder);
    };
    if !row.is_open {
        return Err(Refusal::OrderClosed);
    }
    if row.truck.get() != truck.get() {
        return Err(Refusal::WrongTruckOrEnds);
    }
    let Some(bike) = &view.bike else {
        return Err(Refusal::UnknownBike);
    };
    if !is_loaded(truck, order, &bike.place) {
        return Err(Refusal::WrongPlace);
    }
    if ends_apart(end_at(side, row), &view.station, dock) {
        return Err(Refusal::UnknownDock);
    }
    if view.is_dock_broken {
        return Err(Refusal::DockBroken);
    }
    if view.docked.is_some() {
        return Err(Refusal::DockFull);
    }
    Ok(Unloading { bike, order: row })
}

/// How many of an order are delivered with one more. By the order's own bound there is a number for it.
fn delivered_with(order: &Order) -> u32
    requires { order.now.delivered ≤ order.now.count }
    ensures { result ≡ order.now.delivered + 1 }
{
    prove!(order.delivered <= order.count.get());
    order.delivered + 1
}

/// Decides on unloading a bicycle at an end of its order.
pub(crate) fn decide_unload<'a>(
    view: &'a View,
    truck: TruckNumber,
    order: OrderNumber,
    bike: BicycleNumber,
    side: Side,
    dock: UnloadDock,
) -> Decision<'a>
    requires { IfSome view.now.order (λ o. o.delivered + view.now.on_truck ≤ o.count) }
    ensures decides { DecidesOn view.now (command.Unload truck order bike side dock) result }
    ensures found { IfOk result (FindsOn view.now (command.Unload truck order bike side dock)) }
{
    let unloading = match check_unload(view, truck, order, side, dock) {
        Ok(unloading) => unloading,
        Err(refusal) => return Err(refusal),
    };
    let row = unloading.order;
    let delivery = match side {
        Side::From => None,
        Side::To => Some(Change::SetOrder {
            order: order.get(),
            delivered: delivered_with(row),
            is_open: row.is_open,
        }),
    };
    let was = standing_of(unloading.bike);
    let end = end_at(side, row);
    let moved = put_at_end(bike.get(), &unloading.bike.type_id, was, end, dock);
    Ok(Accepted {
        reply: Reply::Done,
        moved: Some(moved),
        change: delivery,
        entry: None,
    })
}

/// Decides on closing an order, which has no bicycle on its truck.
pub(crate) fn decide_close_order<'a>(view: &View, order: OrderNumber) -> Decision<'a>
    ensures decides { DecidesOn view.now (command.CloseOrder order) result }
    ensures found { IfOk result (FindsOn view.now (command.CloseOrder order)) }
{
    let Some(row) = &view.order else {
        return Err(Refusal::UnknownOrder);
    };
    if !row.is_open {
        return Err(Refusal::OrderClosed);
    }
    if view.on_truck > 0 {
        return Err(Refusal::BikesOnTruck);
    }
    let change = Change::SetOrder {
        order: order.get(),
        delivered: row.delivered,
        is_open: false,
    };
    Ok(Accepted {
        change: Some(change),
        ..Accepted::done()
    })
}
