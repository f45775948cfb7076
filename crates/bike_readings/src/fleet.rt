//! The rows of bicycles, trucks and orders.

ghost use Rattle.std.specs.Prelude.{◌≡◌, option_map, [], ◌∷◌};
ghost use Rattle.sqlite_value.specs.Order.{column};
ghost use Rattle.bike_readings.specs.ColumnReaders.{are_null, end_in, place_in, in_dock, in_rental, on_truck};
ghost use Rattle.bike_readings.specs.Readings.{bike_read, truck_read, order_read};
ghost use Rattle.bike_readings.specs.Views.{place_of, bike_of, truck_of, end_of, order_of};

use crate::columns::{flag_in, ident_in, is_null_at, number_in, state_in, text_in};
use crate::part::Part;
use bike_book::columns::{bikes, orders, trucks};
use bike_fields::{
    BicycleNumber, DockNumber, Ident, MOST_CARRIED, OrderNumber, OrderQuantity, RentalNumber,
    TruckCapacity, TruckNumber,
};
use bike_fixed::Within;
use bike_operator::BikeState;

/// Where a bicycle is, as its row has it.
#[derive(Clone, Copy)]
pub enum StoredPlace<'a> {
    /// In a dock of a station.
    Dock {
        station: &'a str,
        dock: DockNumber,
    },
    /// In a rental.
    Rental {
        rental: RentalNumber,
    },
    /// On a truck, for an order.
    Truck {
        truck: TruckNumber,
        order: OrderNumber,
    },
    /// In the depot.
    Depot,
}

/// A row of `bikes`.
#[derive(Clone, Copy)]
pub struct StoredBike<'a> {
    pub bike: BicycleNumber,
    pub type_id: &'a str,
    pub state: BikeState,
    pub place: StoredPlace<'a>,
}

/// A row of `trucks`.
#[derive(Clone, Copy)]
pub struct StoredTruck {
    pub truck: TruckNumber,
    pub capacity: TruckCapacity,
}

/// An end of an order.
#[derive(Clone, Copy)]
pub enum StoredEnd<'a> {
    /// The depot.
    Depot,
    /// The station of that identifier.
    Station(&'a str),
}

/// A row of `orders`.
#[derive(Clone, Copy)]
pub struct StoredOrder<'a> {
    pub order: OrderNumber,
    pub truck: TruckNumber,
    pub from_end: StoredEnd<'a>,
    pub to_end: StoredEnd<'a>,
    pub type_id: &'a str,
    pub count: OrderQuantity,
    /// How many were brought.
    pub delivered: Within<0, MOST_CARRIED>,
    pub is_open: bool,
}

/// The place in a dock.
fn in_dock<'a>(part: &Part<'a>) -> Option<StoredPlace<'a>>
    ensures { option_map place_of result ≡ in_dock (column part.now 3) (column part.now 4) }
{
    let station = ident_in(part, bikes::STATION_ID)?;
    let dock = number_in(part, bikes::DOCK)?;
    Some(StoredPlace::Dock { station, dock })
}

/// The place in a rental.
fn in_rental<'a>(part: &Part<'a>) -> Option<StoredPlace<'a>>
    ensures { option_map place_of result ≡ in_rental (column part.now 5) }
{
    let rental = number_in(part, bikes::RENTAL)?;
    Some(StoredPlace::Rental { rental })
}

/// The place on a truck.
fn on_truck<'a>(part: &Part<'a>) -> Option<StoredPlace<'a>>
    ensures { option_map place_of result ≡ on_truck (column part.now 6) (column part.now 7) }
{
    let truck = number_in(part, bikes::TRUCK)?;
    let order = number_in(part, bikes::ORD)?;
    Some(StoredPlace::Truck { truck, order })
}

/// The one place that the columns tell: in a dock, in a rental, on a truck for an order, or in the depot.
fn place_in<'a>(part: &Part<'a>) -> Option<StoredPlace<'a>>
    ensures { option_map place_of result ≡ place_in (column part.now 3) (column part.now 4) (column part.now 5)
        (column part.now 6) (column part.now 7) }
{
    let no_dock = is_null_at(part, bikes::STATION_ID) && is_null_at(part, bikes::DOCK);
    let no_rental = is_null_at(part, bikes::RENTAL);
    let no_truck = is_null_at(part, bikes::TRUCK) && is_null_at(part, bikes::ORD);
    match (no_dock, no_rental, no_truck) {
        (true, true, true) => Some(StoredPlace::Depot),
        (false, true, true) => in_dock(part),
        (true, false, true) => in_rental(part),
        (true, true, false) => on_truck(part),
        _ => None,
    }
}

/// What a row of `bikes` spells.
pub fn read_bike(part: Part<'_>) -> Option<StoredBike<'_>>
    ensures { option_map bike_of result ≡ bike_read part.entry }
{
    if part.column_count() != bikes::COLUMNS {
        return None;
    }
    let bike = number_in(&part, bikes::BIKE)?;
    let type_id = ident_in(&part, bikes::TYPE_ID)?;
    let state = state_in(&part, bikes::STATE)?;
    match place_in(&part) {
        Some(place) => Some(StoredBike {
            bike,
            type_id,
            state,
            place,
        }),
        None => None,
    }
}

/// What a row of `trucks` spells.
pub fn read_truck(part: Part<'_>) -> Option<StoredTruck>
    ensures { option_map truck_of result ≡ truck_read part.entry }
{
    if part.column_count() != trucks::COLUMNS {
        return None;
    }
    let truck = number_in(&part, trucks::TRUCK)?;
    let capacity = number_in(&part, trucks::CAPACITY)?;
    Some(StoredTruck { truck, capacity })
}

/// The end of an order: `*` for the depot, or a station's identifier.
#[tactic(auto, unfolding(bike_texts::specs::Reading::end_of, bike_fields::specs::Bytes::ident_of))]
fn end_in<'a>(part: &Part<'a>, at: usize) -> Option<StoredEnd<'a>>
    ensures { option_map end_of result ≡ end_in (column part.now at) }
{
    let text = text_in(part, at)?;
    if text == "*" {
        return Some(StoredEnd::Depot);
    }
    let station = Ident::checked(text)?;
    Some(StoredEnd::Station(station))
}

/// What a row of `orders` spells.
pub fn read_order(part: Part<'_>) -> Option<StoredOrder<'_>>
    ensures { option_map order_of result ≡ order_read part.entry }
{
    if part.column_count() != orders::COLUMNS {
        return None;
    }
    let order = number_in(&part, orders::ORD)?;
    let truck = number_in(&part, orders::TRUCK)?;
    let from_end = end_in(&part, orders::FROM_END)?;
    let to_end = end_in(&part, orders::TO_END)?;
    let type_id = ident_in(&part, orders::TYPE_ID)?;
    let count = number_in(&part, orders::QUANTITY)?;
    let delivered = number_in(&part, orders::DELIVERED)?;
    let is_open = flag_in(&part, orders::IS_OPEN)?;
    Some(StoredOrder {
        order,
        truck,
        from_end,
        to_end,
        type_id,
        count,
        delivered,
        is_open,
    })
}
