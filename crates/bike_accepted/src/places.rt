//! What a bicycle is good for and where it is.

ghost use Rattle.std.specs.Prelude.{◌≡◌, ◌&&◌};
ghost use Rattle.bike_operator.specs.Counts.{is_fit, is_retired, is_depot, is_on_truck, is_for_order};
ghost use Rattle.bike_operator.specs.View.{end_at};
ghost use Rattle.bike_operator.specs.Steps.{is_same_end, is_at_end, ends_apart};
ghost use Rattle.bike_operator.specs.Changes.{place_of};
ghost use Rattle.bike_accepted.specs.Moves.{put_from, IsHeldShown, IsPutAtEnd};

use crate::movement::{BikeStatus, DockAt, DockOccupant, Movement};
use bike_fields::{Ident, OrderNumber, TruckNumber};
use bike_operator::{Bike, BikeState, DockedBike, NewPlace, Order, Place, StationView};
use bike_texts::{OrderEnd, Side, UnloadDock};

/// Whether a bicycle stays in the depot for good.
pub fn is_retired(state: BikeState) -> bool
    ensures { result ≡ is_retired state }
{
    match state {
        BikeState::Retired => true,
        BikeState::Fit | BikeState::Disabled => false,
    }
}

/// Whether the place is the depot.
pub fn is_depot(place: &Place) -> bool
    ensures { result ≡ is_depot place.now }
{
    match place {
        Place::Depot => true,
        Place::Dock { .. } | Place::Rental { .. } | Place::Truck { .. } => false,
    }
}

/// Whether a place lies at an end: in a dock of the station, or in the depot.
pub fn is_at_end(end: &OrderEnd, place: &Place) -> bool
    ensures { result ≡ is_at_end end.now place.now }
{
    match end {
        OrderEnd::Depot => is_depot(place),
        OrderEnd::Station(end) => match place {
            Place::Dock { station, .. } => station.as_str() == end.as_str(),
            Place::Rental { .. } | Place::Truck { .. } | Place::Depot => false,
        },
    }
}

/// Where a bicycle is, as a change tells it.
fn place_in<'a>(place: &'a Place) -> NewPlace<'a>
    ensures { place_of result ≡ place.now }
{
    match place {
        Place::Dock { station, dock } => NewPlace::Dock {
            station,
            dock: dock.get(),
        },
        Place::Rental { rental } => NewPlace::Rental {
            rental: rental.get(),
        },
        Place::Truck { truck, order } => NewPlace::Truck {
            truck: truck.get(),
            order: order.get(),
        },
        Place::Depot => NewPlace::Depot,
    }
}

/// How a bicycle stands.
pub fn standing_of<'a>(bike: &'a Bike) -> BikeStatus<'a>
    ensures state { result.state ≡ bike.now.state }
    ensures place { place_of result.place ≡ bike.now.place }
{
    BikeStatus {
        state: bike.state,
        place: place_in(&bike.place),
    }
}

/// A bicycle put from where it stands, in no dock but that. A dock in which it stands has this mark.
pub fn put_from<'a>(
    bike: u32,
    type_id: &'a Ident,
    was: BikeStatus<'a>,
    becomes: BikeStatus<'a>,
    is_broken: bool,
) -> Movement<'a>
    ensures { result ≡ put_from was.entry.place bike type_id.entry was.entry becomes.entry is_broken }
{
    match was.place {
        NewPlace::Dock { station, dock } => {
            let at = DockAt {
                station,
                dock,
                is_broken,
            };
            Movement::AtDock {
                at,
                bike,
                type_id,
                was,
                becomes,
            }
        }
        NewPlace::Rental { .. } | NewPlace::Truck { .. } | NewPlace::Depot => Movement::Away {
            bike,
            type_id,
            was,
            becomes,
        },
    }
}

/// Whether a bicycle can be rented.
pub fn is_fit(state: BikeState) -> bool
    ensures { result ≡ is_fit state }
{
    match state {
        BikeState::Fit => true,
        BikeState::Disabled | BikeState::Retired => false,
    }
}

/// Whether two ends are the depot, or the same station.
pub fn is_same_end(one: &OrderEnd, other: &OrderEnd) -> bool
    ensures { result ≡ is_same_end one.now other.now }
{
    match (one, other) {
        (OrderEnd::Depot, OrderEnd::Depot) => true,
        (OrderEnd::Station(one), OrderEnd::Station(other)) => one.as_str() == other.as_str(),
        _ => false,
    }
}

/// Whether a place is this truck, for this order.
pub fn is_loaded(truck: TruckNumber, order: OrderNumber, place: &Place) -> bool
    ensures { result ≡ (is_on_truck truck place.now && is_for_order order place.now) }
{
    match place {
        Place::Truck {
            truck: on,
            order: loaded_for,
        } => on.get() == truck.get() && loaded_for.get() == order.get(),
        Place::Dock { .. } | Place::Rental { .. } | Place::Depot => false,
    }
}

/// The end of an order at a side.
pub fn end_at(side: Side, order: &Order) -> &OrderEnd
    ensures { result.now ≡ end_at side order.now }
{
    match side {
        Side::From => &order.from_end,
        Side::To => &order.to_end,
    }
}

/// Whether an end has no dock of this number: a station's are 1, 2, .., and the depot has 0 in place of one.
pub fn ends_apart(end: &OrderEnd, station: &Option<StationView>, dock: UnloadDock) -> bool
    ensures { result ≡ ends_apart end.now station.now dock }
{
    let dock = dock.get();
    match (end, station) {
        (OrderEnd::Depot, _) => dock > 0,
        (OrderEnd::Station(_), None) => dock == 0,
        (OrderEnd::Station(_), Some(row)) => dock == 0 || row.docks.get() < dock,
    }
}

/// The bicycle in a dock, as a mark of the dock has it.
pub fn held_in<'a>(docked: &'a Option<DockedBike>) -> Option<DockOccupant<'a>>
    ensures { IsHeldShown docked.now result }
{
    match docked {
        None => None,
        Some(row) => Some(DockOccupant {
            bike: row.bike.get(),
            type_id: &row.type_id,
            state: row.state,
        }),
    }
}

/// A bicycle put at an end of an order: in the depot, or in an empty dock that works.
pub fn put_at_end<'a>(
    bike: u32,
    type_id: &'a Ident,
    was: BikeStatus<'a>,
    end: &'a OrderEnd,
    dock: UnloadDock,
) -> Movement<'a>
    ensures { IsPutAtEnd end.now bike type_id.entry was.entry dock result }
{
    let state = was.state;
    match end {
        OrderEnd::Depot => Movement::Away {
            bike,
            type_id,
            was,
            becomes: BikeStatus {
                state,
                place: NewPlace::Depot,
            },
        },
        OrderEnd::Station(station) => {
            let dock = dock.get();
            let at = DockAt {
                station,
                dock,
                is_broken: false,
            };
            Movement::AtDock {
                at,
                bike,
                type_id,
                was,
                becomes: BikeStatus {
                    state,
                    place: NewPlace::Dock { station, dock },
                },
            }
        }
    }
}
