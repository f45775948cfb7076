//! The bicycles that the rows of lines count.

ghost use Rattle.std.specs.Prelude.{◌≡◌, ◌+◌, ◌≤◌, option_map};
ghost use Rattle.sqlite_value.specs.Order.{column};
ghost use Rattle.sqlite_sql.specs.Ops.{is_null};
ghost use Rattle.bike_book.specs.declared.columns.bikes.TheConstants as bikes;
ghost use Rattle.bike_schema.specs.Columns.{text_in, number_in, state_in, ident_in, or_none};
ghost use Rattle.bike_readings.specs.ColumnReaders.{serial_in};
ghost use Rattle.bike_readings.specs.ReadOff.{dock_place, truck_place, first_place};
ghost use Rattle.bike_readings.specs.Views.{bike_of, place_of};
ghost use Rattle.bike_judges.specs.Lines.{part};
ghost use Rattle.bike_fleet_rules.specs.Counted.{counted_at, counted_in, place_at};
ghost use Rattle.bike_fleet_rules.specs.Loads.{is_of};

use bike_book::columns::bikes;
use bike_fields::{DockNumber, Ident, OrderNumber, RentalNumber, TruckNumber};
use bike_fixed::Within;
use bike_operator::BikeState;
use bike_readings::{StoredBike, StoredPlace};
use bike_schema::{number_at, optional_number_at, state_at};
use sqlite::Row;
use sqlite::types::ValueRef;

/// The column with the number of the owner, a truck or an order.
const OWNER: usize = 0;

/// The column that says which table the line is of.
pub(crate) const TABLE: usize = 1;

/// The column by which the owner's lines of one table are in order.
const ORDINAL: usize = 2;

/// Where the row begins, of whatever table it is.
pub(crate) const ROW_AT: usize = ORDINAL + 1;

/// From the station of a place to its dock.
const TO_DOCK: usize = bikes::DOCK - bikes::STATION_ID;

/// From there to the rental.
const TO_RENTAL: usize = bikes::RENTAL - bikes::STATION_ID;

/// From there to the truck.
const TO_TRUCK: usize = bikes::TRUCK - bikes::STATION_ID;

/// From there to the order.
const TO_ORDER: usize = bikes::ORD - bikes::STATION_ID;

/// The number in a column, where it lies from `LO` to `HI`.
#[tactic(auto, using(bike_readings::proofs::ReadLemmas::read_some, bike_readings::proofs::ReadLemmas::read_none))]
pub(crate) fn number_in<const LO: u32, const HI: u32, K>(
    line: &Row,
    at: usize,
) -> Option<Within<LO, HI, K>>
    ensures { result ≡ number_in LO HI (column line.now at) }
{
    match number_at(line, at) {
        Ok(number) => Some(number),
        Err(_) => None,
    }
}

/// Whether a column is NULL.
fn is_null(line: &Row, at: usize) -> bool
    ensures { result ≡ is_null (column line.now at) }
{
    matches!(line.get_ref(at), Ok(ValueRef::Null) | Err(_))
}

/// The number of a rental, an order or an entry in a column.
fn serial_in(line: &Row, at: usize) -> Option<u32>
    ensures { result ≡ serial_in (column line.now at) }
{
    let number: RentalNumber = number_in(line, at)?;
    Some(number.get())
}

/// Whether the line is of the owner with this number.
pub(crate) fn is_of(line: &Row, owner: u32) -> bool
    ensures { result ≡ is_of owner line.now }
{
    match serial_in(line, OWNER) {
        Some(number) => number == owner,
        None => false,
    }
}

/// The state of a bicycle in a column.
#[tactic(auto, using(bike_readings::proofs::ReadLemmas::read_some, bike_readings::proofs::ReadLemmas::read_none))]
fn state_in(line: &Row, at: usize) -> Option<BikeState>
    ensures { result ≡ state_in (column line.now at) }
{
    match state_at(line, at) {
        Ok(state) => Some(state),
        Err(_) => None,
    }
}

/// The text in a column, where it is UTF-8.
fn text_in(line: &Row, at: usize) -> Option<&str>
    ensures { option_map (λ text. text.now) result ≡ text_in (column line.now at) }
{
    let Ok(ValueRef::Text(bytes)) = line.get_ref(at) else {
        return None;
    };
    match str::from_utf8(bytes) {
        Ok(text) => Some(text),
        Err(_) => None,
    }
}

/// The identifier in a column.
fn ident_in(line: &Row, at: usize) -> Option<&str>
    ensures { option_map (λ text. text.now) result ≡ ident_in (column line.now at) }
{
    Ident::checked(text_in(line, at)?)
}

/// The identifier in a column, or `Some(None)` where the column is NULL.
fn ident_or_none(line: &Row, at: usize) -> Option<Option<&str>>
    ensures { option_map (option_map (λ text. text.now)) result ≡ or_none ident_in (column line.now at) }
{
    if is_null(line, at) {
        return Some(None);
    }
    let ident = ident_in(line, at)?;
    Some(Some(ident))
}

/// The number in a column, or `Some(None)` where the column is NULL.
#[tactic(auto, using(bike_readings::proofs::ReadLemmas::read_some, bike_readings::proofs::ReadLemmas::read_none))]
fn number_or_none<const LO: u32, const HI: u32, K>(
    line: &Row,
    at: usize,
) -> Option<Option<Within<LO, HI, K>>>
    ensures { result ≡ or_none (number_in LO HI) (column line.now at) }
{
    match optional_number_at(line, at) {
        Ok(number) => Some(number),
        Err(_) => None,
    }
}

/// The place in a dock, where both parts are there.
fn dock_place<'a>(station: Option<&'a str>, dock: Option<DockNumber>) -> Option<StoredPlace<'a>>
    ensures { option_map place_of result ≡ dock_place (option_map (λ text. text.now) station.entry) dock }
{
    let station = station?;
    let dock = dock?;
    Some(StoredPlace::Dock { station, dock })
}

/// The place on a truck, where both parts are there.
fn truck_place<'a>(
    truck: Option<TruckNumber>,
    order: Option<OrderNumber>,
) -> Option<StoredPlace<'a>>
    ensures { option_map place_of result ≡ truck_place truck order }
{
    let truck = truck?;
    let order = order?;
    Some(StoredPlace::Truck { truck, order })
}

/// The first whole place among these parts of places.
fn first_place<'a>(
    station: Option<&'a str>,
    dock: Option<DockNumber>,
    rental: Option<RentalNumber>,
    truck: Option<TruckNumber>,
    order: Option<OrderNumber>,
) -> StoredPlace<'a>
    ensures { place_of result ≡ first_place (option_map (λ text. text.now) station.entry) dock rental truck order }
{
    if let Some(place) = dock_place(station, dock) {
        return place;
    }
    if let Some(rental) = rental {
        return StoredPlace::Rental { rental };
    }
    if let Some(place) = truck_place(truck, order) {
        return place;
    }
    StoredPlace::Depot
}

/// The first place that five columns name, where each of them is NULL or keeps its bounds.
fn place_at(line: &Row, at: usize) -> Option<StoredPlace<'_>>
    requires { at ≤ 32 }
    ensures { option_map place_of result ≡ place_at at line.now }
{
    let station = ident_or_none(line, at)?;
    let dock = number_or_none(line, at + TO_DOCK)?;
    let rental = number_or_none(line, at + TO_RENTAL)?;
    let truck = number_or_none(line, at + TO_TRUCK)?;
    let order = number_or_none(line, at + TO_ORDER)?;
    Some(first_place(station, dock, rental, truck, order))
}

/// The bicycle that eight columns spell, at the first place that they name.
fn counted_at(line: &Row, first: usize) -> Option<StoredBike<'_>>
    requires { first ≤ 16 }
    ensures { option_map bike_of result ≡ counted_at first line.now }
{
    let count = line.column_count();
    if count < bikes::COLUMNS || first > count - bikes::COLUMNS {
        return None;
    }
    let bike = number_in(line, first)?;
    let type_id = ident_in(line, first + bikes::TYPE_ID)?;
    let state = state_in(line, first + bikes::STATE)?;
    match place_at(line, first + bikes::STATION_ID) {
        Some(place) => Some(StoredBike {
            bike,
            type_id,
            state,
            place,
        }),
        None => None,
    }
}

/// The bicycle that the row counts which stands in a line from the column `first` on.
#[tactic(auto, using(crate::proofs::ColumnLemmas::counted_part))]
pub(crate) fn counted_bike(line: &Row, first: usize) -> Option<StoredBike<'_>>
    requires { first ≤ 16 }
    ensures { option_map bike_of result ≡ counted_in (part first bikes.COLUMNS line.now) }
{
    counted_at(line, first)
}
