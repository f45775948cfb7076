//! What is asked of a bicycle with its partners beside it.

ghost use Rattle.std.specs.Prelude.{◌≡◌, IfOk, option_map};
ghost use Rattle.bike_book.specs.declared.columns.stations.TheConstants as stations;
ghost use Rattle.bike_book.specs.declared.columns.bikes.TheConstants as bikes;
ghost use Rattle.bike_book.specs.declared.columns.trucks.TheConstants as trucks;
ghost use Rattle.bike_book.specs.declared.columns.rentals.TheConstants as rentals;
ghost use Rattle.bike_book.specs.declared.columns.orders.TheConstants as orders;
ghost use Rattle.bike_operator.specs.Counts.{is_depot};
ghost use Rattle.bike_judges.specs.Judging.{key_row};
ghost use Rattle.bike_judges.specs.Lines.{part};
ghost use Rattle.bike_readings.specs.Readings.{bike_read, order_read, rental_read, station_read, truck_read};
ghost use Rattle.bike_readings.specs.Views.{bike_of, place_of};
ghost use Rattle.bike_fleet_rules.specs.declared.bike_tests.TheConstants.{BIKE_AT, STATION_AT, RENTAL_AT, ORDER_AT};
ghost use Rattle.bike_fleet_rules.specs.declared.bike_tests.TheConstants.{TRUCK_AT};
ghost use Rattle.bike_fleet_rules.specs.Tests.{first_key, has_dock, is_dock_there, is_where_retired, is_ridden};
ghost use Rattle.bike_fleet_rules.specs.Tests.{is_carried, is_used, is_truck_there, bike_names, bike_uses, bike_trucks};

use crate::key::number_key;
use crate::partners::{has_truck, has_type};
use bike_book::columns::{bikes, orders, rentals, stations, types};
use bike_fields::{BicycleNumber, DockNumber, TruckNumber};
use bike_judges::{BadKey, LineTest};
use bike_operator::{BikeState, MOST_BIKES};
use bike_readings::{
    Part, StoredBike, StoredPlace, read_bike, read_order, read_rental, read_station,
};
use bike_schema::StatementFault;
use sqlite::Row;

/// Where the row of a bicycle stands in its line.
const BIKE_AT: usize = 0;

/// Where that of its type stands, in a line with type and station.
const TYPE_AT: usize = BIKE_AT + bikes::COLUMNS;

/// Where that of its station stands, in the same line.
const STATION_AT: usize = TYPE_AT + types::COLUMNS;

/// Where that of its rental stands, in a line with rental and order.
const RENTAL_AT: usize = BIKE_AT + bikes::COLUMNS;

/// Where that of its order stands, in the same line.
const ORDER_AT: usize = RENTAL_AT + rentals::COLUMNS;

/// Where that of its truck stands, in a line with the truck.
const TRUCK_AT: usize = BIKE_AT + bikes::COLUMNS;

/// Bicycles, each with its type and its station.
#[derive(Debug, Drop)]
pub(crate) struct BikeNames;

/// Bicycles, each with its rental and its order.
#[derive(Debug, Drop)]
pub(crate) struct BikeUses;

/// Bicycles, each with its truck.
#[derive(Debug, Drop)]
pub(crate) struct BikeTrucks;

/// The bicycle of the line's row, where that names one place.
fn bike_of(line: &Row) -> Option<StoredBike<'_>>
    ensures { option_map bike_of result ≡ bike_read (part BIKE_AT bikes.COLUMNS line.now) }
{
    read_bike(Part::of(line, BIKE_AT, bikes::COLUMNS))
}

/// Whether the line's station has the dock.
fn has_dock(line: &Row, dock: DockNumber) -> bool
    ensures { result ≡ has_dock dock (station_read (part STATION_AT stations.COLUMNS line.now)) }
{
    match read_station(Part::of(line, STATION_AT, stations::COLUMNS)) {
        Some(station) => dock.get() <= station.docks.get(),
        None => false,
    }
}

/// Whether a dock in which the bicycle is is there.
fn is_dock_there(place: &StoredPlace<'_>, line: &Row) -> bool
    ensures { result ≡ is_dock_there (place_of place.now) (station_read (part STATION_AT stations.COLUMNS line.now)) }
{
    match place {
        StoredPlace::Dock { station: _, dock } => has_dock(line, *dock),
        _ => true,
    }
}

fn is_depot(place: &StoredPlace<'_>) -> bool
    ensures { result ≡ is_depot (place_of place.now) }
{
    matches!(place, StoredPlace::Depot)
}

/// Whether the bicycle is in the depot, if it is retired.
fn is_where_retired(state: BikeState, place: &StoredPlace<'_>) -> bool
    ensures { result ≡ is_where_retired state (place_of place.now) }
{
    match state {
        BikeState::Retired => is_depot(place),
        _ => true,
    }
}

/// Whether the line's rental is open, and the bicycle's.
fn is_ridden(line: &Row, bike: BicycleNumber) -> bool
    ensures { result ≡ is_ridden bike (rental_read (part RENTAL_AT rentals.COLUMNS line.now)) }
{
    match read_rental(Part::of(line, RENTAL_AT, rentals::COLUMNS)) {
        Some(rental) => rental.closing.is_none() && rental.bike.get() == bike.get(),
        None => false,
    }
}

/// Whether the line's order is open, the truck's, and of the type.
fn is_carried(line: &Row, type_id: &str, truck: TruckNumber) -> bool
    ensures { result ≡ is_carried type_id.now truck (order_read (part ORDER_AT orders.COLUMNS line.now)) }
{
    match read_order(Part::of(line, ORDER_AT, orders::COLUMNS)) {
        Some(order) => order.is_open
            && order.truck.get() == truck.get()
            && order.type_id == type_id,
        None => false,
    }
}

/// Whether the bicycle may be where it is, if it is in a rental or on a truck.
fn is_used(line: &Row, bike: BicycleNumber, type_id: &str, place: &StoredPlace<'_>) -> bool
    ensures { result ≡ is_used bike type_id.now (place_of place.now)
        (rental_read (part RENTAL_AT rentals.COLUMNS line.now)) (order_read (part ORDER_AT orders.COLUMNS line.now)) }
{
    match place {
        StoredPlace::Rental { rental: _ } => is_ridden(line, bike),
        StoredPlace::Truck { truck, order: _ } => is_carried(line, type_id, *truck),
        _ => true,
    }
}

/// Whether a truck on which the bicycle is is there.
fn is_truck_there(place: &StoredPlace<'_>, line: &Row) -> bool
    ensures { result ≡ is_truck_there (place_of place.now) (truck_read (part TRUCK_AT trucks.COLUMNS line.now)) }
{
    match place {
        StoredPlace::Truck { truck: _, order: _ } => has_truck(line, TRUCK_AT),
        _ => true,
    }
}

/// Whether the bicycle before which so many stand has a type and a dock that are there, and is in the depot if it is
/// retired.
#[tactic(auto, unfolding(crate::specs::Tests::bike_names))]
fn is_named(before: u64, line: &Row) -> bool
    ensures { result ≡ bike_names before line.now }
{
    let Some(bike) = bike_of(line) else {
        return false;
    };
    before < u64::from(MOST_BIKES)
        && has_type(line, TYPE_AT)
        && is_dock_there(&bike.place, line)
        && is_where_retired(bike.state, &bike.place)
}

/// Whether the bicycle's rental, or its order, is its own.
#[tactic(auto, unfolding(crate::specs::Tests::bike_uses))]
fn is_own(before: u64, line: &Row) -> bool
    ensures { result ≡ bike_uses before line.now }
{
    let Some(bike) = bike_of(line) else {
        return false;
    };
    is_used(line, bike.bike, bike.type_id, &bike.place)
}

/// Whether the bicycle's truck is there.
#[tactic(auto, unfolding(crate::specs::Tests::bike_trucks))]
fn is_borne(before: u64, line: &Row) -> bool
    ensures { result ≡ bike_trucks before line.now }
{
    let Some(bike) = bike_of(line) else {
        return false;
    };
    is_truck_there(&bike.place, line)
}

impl LineTest for BikeNames {
    ghost test = { λ _ before line. bike_names before line };

    ghost key = { λ _ line. first_key line };

    fn is_good(&self, before: u64, line: &Row) -> Result<bool, StatementFault> {
        Ok(is_named(before, line))
    }

    fn bad_key(&self, line: &Row) -> Result<BadKey, StatementFault> {
        number_key(line)
    }
}

impl LineTest for BikeUses {
    ghost test = { λ _ before line. bike_uses before line };

    ghost key = { λ _ line. first_key line };

    fn is_good(&self, before: u64, line: &Row) -> Result<bool, StatementFault> {
        Ok(is_own(before, line))
    }

    fn bad_key(&self, line: &Row) -> Result<BadKey, StatementFault> {
        number_key(line)
    }
}

impl LineTest for BikeTrucks {
    ghost test = { λ _ before line. bike_trucks before line };

    ghost key = { λ _ line. first_key line };

    fn is_good(&self, before: u64, line: &Row) -> Result<bool, StatementFault> {
        Ok(is_borne(before, line))
    }

    fn bad_key(&self, line: &Row) -> Result<BadKey, StatementFault> {
        number_key(line)
    }
}
