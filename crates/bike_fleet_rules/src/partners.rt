//! What the partners in a line tell.

ghost use Rattle.std.specs.Prelude.{◌≡◌, is_some};
ghost use Rattle.bike_book.specs.declared.columns.types.TheConstants as types;
ghost use Rattle.bike_book.specs.declared.columns.stations.TheConstants as stations;
ghost use Rattle.bike_book.specs.declared.columns.trucks.TheConstants as trucks;
ghost use Rattle.bike_operator.specs.Steps.{is_same_end};
ghost use Rattle.bike_readings.specs.Readings.{station_read, truck_read, type_read};
ghost use Rattle.bike_readings.specs.Views.{end_of};
ghost use Rattle.bike_judges.specs.Lines.{part};
ghost use Rattle.bike_fleet_rules.specs.Tests.{holds, is_end_there};

use bike_book::columns::{stations, trucks, types};
use bike_fields::OrderQuantity;
use bike_readings::{Part, StoredEnd, read_station, read_truck, read_type};
use sqlite::Row;

/// Whether a vehicle type stands in the line from the column `first` on.
pub(crate) fn has_type(line: &Row, first: usize) -> bool
    ensures { result ≡ is_some (type_read (part first types.COLUMNS line.now)) }
{
    read_type(Part::of(line, first, types::COLUMNS)).is_some()
}

/// Whether a station stands in the line from the column `first` on.
pub(crate) fn has_station(line: &Row, first: usize) -> bool
    ensures { result ≡ is_some (station_read (part first stations.COLUMNS line.now)) }
{
    read_station(Part::of(line, first, stations::COLUMNS)).is_some()
}

/// Whether a truck stands in the line from the column `first` on.
pub(crate) fn has_truck(line: &Row, first: usize) -> bool
    ensures { result ≡ is_some (truck_read (part first trucks.COLUMNS line.now)) }
{
    read_truck(Part::of(line, first, trucks::COLUMNS)).is_some()
}

/// Whether the truck that stands in the line from the column `first` on holds so many bicycles.
pub(crate) fn holds(line: &Row, first: usize, count: OrderQuantity) -> bool
    ensures { result ≡ holds count (truck_read (part first trucks.COLUMNS line.now)) }
{
    match read_truck(Part::of(line, first, trucks::COLUMNS)) {
        Some(truck) => count.get() <= truck.capacity.get(),
        None => false,
    }
}

/// Whether the end is the depot, or its station stands in the line from the column `first` on.
pub(crate) fn is_end_there(end: StoredEnd<'_>, line: &Row, first: usize) -> bool
    ensures { result ≡ is_end_there (end_of end.entry) (station_read (part first stations.COLUMNS line.now)) }
{
    match end {
        StoredEnd::Depot => true,
        StoredEnd::Station(_) => has_station(line, first),
    }
}

/// Whether the ends are one.
pub(crate) fn is_same_end(from: StoredEnd<'_>, to: StoredEnd<'_>) -> bool
    ensures { result ≡ is_same_end (end_of from.entry) (end_of to.entry) }
{
    match (from, to) {
        (StoredEnd::Depot, StoredEnd::Depot) => true,
        (StoredEnd::Station(from), StoredEnd::Station(to)) => from == to,
        _ => false,
    }
}
