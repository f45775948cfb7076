//! What the commands on trucks and their orders name.

ghost use Rattle.std.specs.Prelude.{◌≡◌, ℕ};
ghost use Rattle.bike_commands.specs.declared.command.Command.TheVariants as command;
ghost use Rattle.bike_operator.specs.Counts.{order_load};
ghost use Rattle.bike_operator.specs.Operator.{item_numbered, last_number};
ghost use Rattle.bike_operator.specs.View.{end_at as end_of_order, end_view, has_end, side_view, view_of};
ghost use Rattle.bike_schema.specs.Answers.{Answers};
ghost use Rattle.bike_fleet_reads.specs.Fleet.{IsTruckLoad};
ghost use Rattle.bike_views.specs.Open.{AnswersOpen};
ghost use Rattle.bike_views.specs.ViewAndDocks.{IsFoundFor, end_docks, side_docks, told_of};

use crate::bikes::find_bike_view;
use crate::docks::find_dock_view;
use crate::empty::empty_view;
use crate::view_and_docks::ViewAndDocks;
use bike_fields::{BicycleNumber, Ident, OrderNumber, TruckNumber};
use bike_fleet_reads::{
    TruckLoad, are_trucks_full, find_bike, find_order, find_truck, find_truck_load, has_station,
    has_type,
};
use bike_operator::{Order, View};
use bike_schema::StatementFault;
use bike_texts::{OrderEnd, Side, UnloadDock};
use sqlite::{Alter, Connection};
use std::alloc::Global;

/// The view for a new truck, whatever it holds.
pub(crate) fn view_to_add_truck<S: Alter>(
    conn: &mut Connection<S>,
    truck: TruckNumber,
) -> Result<View, StatementFault>
    ensures { Answers S.Store conn.old conn.new result
        (λ s m view. (capacity : ℕ) → view ≡ view_of s (command.AddTruck truck capacity)) }
{
    let truck = find_truck(conn, truck)?;
    let is_full = are_trucks_full(conn)?;
    Ok(View {
        truck,
        is_full,
        ..empty_view()
    })
}

/// Whether the end of an order is there, as the depot always is.
fn is_end_there<S: Alter>(conn: &mut Connection<S>, end: &OrderEnd) -> Result<bool, StatementFault>
    ensures { AnswersOpen S.Store conn.old conn.new result (λ s m there. there ≡ has_end s end.now) }
{
    match end {
        OrderEnd::Depot => Ok(true),
        OrderEnd::Station(station) => has_station(conn, station),
    }
}

/// The view for a new order, whatever its quantity, where there are so many.
pub(crate) fn view_to_open_order<S: Alter>(
    conn: &mut Connection<S>,
    truck: TruckNumber,
    from_end: &OrderEnd,
    to_end: &OrderEnd,
    type_id: &Ident,
    orders: u32,
) -> Result<View, StatementFault>
    ensures { Answers S.Store conn.old conn.new result (λ s m view. orders ≡ last_number s.orders → (count : ℕ)
        → view ≡ view_of s (command.OpenOrder truck from_end.now to_end.now type_id.now count)) }
{
    let truck = find_truck(conn, truck)?;
    let has_type = has_type(conn, type_id)?;
    let has_from = is_end_there(conn, from_end)?;
    let has_to = is_end_there(conn, to_end)?;
    Ok(View {
        truck,
        has_type,
        has_from,
        has_to,
        orders,
        ..empty_view()
    })
}

/// How many bicycles are on its truck for an order, of which this was read.
fn find_order_load<S: Alter>(
    conn: &mut Connection<S>,
    number: OrderNumber,
    order: &Option<Order>,
) -> Result<u32, StatementFault>
    ensures { AnswersOpen S.Store conn.old conn.new result
        (λ s m load. order.now ≡ item_numbered number s.orders → load ≡ order_load s number) }
{
    match order {
        None => Ok(0),
        Some(order) => {
            let load = find_truck_load(conn, order.truck, number)?;
            Ok(load.for_order)
        }
    }
}

/// How many bicycles are on its truck for an order, of which this was read, where so many are on a truck: those of
/// another truck are read.
fn load_of_order<S: Alter>(
    conn: &mut Connection<S>,
    number: OrderNumber,
    order: &Option<Order>,
    truck: TruckNumber,
    load: &TruckLoad,
) -> Result<u32, StatementFault>
    ensures { AnswersOpen S.Store conn.old conn.new result
        (λ s m on_truck. order.now ≡ item_numbered number s.orders → IsTruckLoad s truck number load.now
        → on_truck ≡ order_load s number) }
{
    if let Some(row) = order {
        if row.truck.get() == truck.get() {
            return Ok(load.for_order);
        }
    }
    find_order_load(conn, number, order)
}

/// The view for a bicycle that is loaded.
pub(crate) fn view_to_load<S: Alter>(
    alloc: Global,
    conn: &mut Connection<S>,
    truck: TruckNumber,
    order: OrderNumber,
    bike: BicycleNumber,
) -> Result<ViewAndDocks, StatementFault>
    ensures { Answers S.Store conn.old conn.new result
        (λ s m x. IsFoundFor s m (command.Load truck order bike) x) }
{
    let load = find_truck_load(conn, truck, order)?;
    let row = find_order(alloc, conn, order)?;
    let on_truck = load_of_order(conn, order, &row, truck, &load)?;
    let truck = find_truck(conn, truck)?;
    let mut found = find_bike_view(alloc, conn, bike)?;
    found.view.truck = truck;
    found.view.loaded = load.all;
    found.view.order = row;
    found.view.on_truck = on_truck;
    Ok(found)
}

/// The end of an order at a side.
fn end_at(side: Side, order: &Order) -> &OrderEnd
    ensures { result.now ≡ end_of_order side order.now }
{
    match side {
        Side::From => &order.from_end,
        Side::To => &order.to_end,
    }
}

/// The dock at an end of an order, where there is one, with the docks of its station: the depot has none.
fn find_end_view<S: Alter>(
    alloc: Global,
    conn: &mut Connection<S>,
    end: &OrderEnd,
    dock: u32,
) -> Result<ViewAndDocks, StatementFault>
    ensures { AnswersOpen S.Store conn.old conn.new result
        (λ s m x. (x.view ≡ end_view s end.now dock) × (told_of x.docks ≡ end_docks s end.now)) }
{
    match end {
        OrderEnd::Depot => Ok(ViewAndDocks::plain(empty_view())),
        OrderEnd::Station(station) => find_dock_view(alloc, conn, station, dock),
    }
}

/// The dock at a side of an order, where both are there, with the docks of its station.
fn find_side_view<S: Alter>(
    alloc: Global,
    conn: &mut Connection<S>,
    order: &Option<Order>,
    side: Side,
    dock: u32,
) -> Result<ViewAndDocks, StatementFault>
    ensures { AnswersOpen S.Store conn.old conn.new result
        (λ s m x. (x.view ≡ side_view s order.now side dock) × (told_of x.docks ≡ side_docks s order.now side)) }
{
    match order {
        None => Ok(ViewAndDocks::plain(empty_view())),
        Some(order) => find_end_view(alloc, conn, end_at(side, order), dock),
    }
}

/// The view for a bicycle that is unloaded.
pub(crate) fn view_to_unload<S: Alter>(
    alloc: Global,
    conn: &mut Connection<S>,
    truck: TruckNumber,
    order: OrderNumber,
    bike: BicycleNumber,
    side: Side,
    dock: UnloadDock,
) -> Result<ViewAndDocks, StatementFault>
    ensures { Answers S.Store conn.old conn.new result
        (λ s m x. IsFoundFor s m (command.Unload truck order bike side dock) x) }
{
    let truck = find_truck(conn, truck)?;
    let bike = find_bike(alloc, conn, bike)?;
    let order = find_order(alloc, conn, order)?;
    let mut found = find_side_view(alloc, conn, &order, side, dock.get())?;
    found.view.truck = truck;
    found.view.bike = bike;
    found.view.order = order;
    Ok(found)
}

/// The view for an order that is closed.
pub(crate) fn view_to_close_order<S: Alter>(
    alloc: Global,
    conn: &mut Connection<S>,
    order: OrderNumber,
) -> Result<View, StatementFault>
    ensures { Answers S.Store conn.old conn.new result (λ s m view. view ≡ view_of s (command.CloseOrder order)) }
{
    let found = find_order(alloc, conn, order)?;
    let on_truck = find_order_load(conn, order, &found)?;
    Ok(View {
        order: found,
        on_truck,
        ..empty_view()
    })
}
