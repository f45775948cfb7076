//! Where a bicycle is, in the five columns of its place.

ghost use Rattle.std.specs.Prelude.{◌≡◌, [], ◌∷◌, IfOk, IfSome};
ghost use Rattle.sqlite.specs.declared.types.Value.TheVariants.{Text};
ghost use Rattle.sqlite.specs.Values.{or_null};
ghost use Rattle.bike_book.specs.Rows.{number_value, place_columns};
ghost use Rattle.bike_fleet_reads.specs.Holds.{columns_at, HoldsPlace};

use bike_book::columns::bikes;
use bike_fields::{DockNumber, Ident, OrderNumber, RentalNumber, TruckNumber};
use bike_operator::Place;
use bike_schema::{StatementFault, optional_ident_at, optional_number_at};
use sqlite::Row;
use std::alloc::Global;

/// The numbers in the columns of a place, each there or NULL.
#[derive(Clone, Copy)]
struct PlaceNumbers {
    dock: Option<DockNumber>,
    rental: Option<RentalNumber>,
    truck: Option<TruckNumber>,
    order: Option<OrderNumber>,
}

/// The numbers in the columns of a place.
fn numbers_at(row: &Row) -> Result<PlaceNumbers, StatementFault>
    ensures { IfOk result (λ n. columns_at 4 4 row.now ≡ or_null number_value n.dock
        ∷ or_null number_value n.rental ∷ or_null number_value n.truck ∷ or_null number_value n.order ∷ []) }
{
    let dock = optional_number_at(row, bikes::DOCK)?;
    let rental = optional_number_at(row, bikes::RENTAL)?;
    let truck = optional_number_at(row, bikes::TRUCK)?;
    let order = optional_number_at(row, bikes::ORD)?;
    Ok(PlaceNumbers {
        dock,
        rental,
        truck,
        order,
    })
}

/// The one place that these columns stand for, or `None` where they stand for none or for several.
fn place_of(station: Option<Ident>, numbers: PlaceNumbers) -> Option<Place>
    ensures { IfSome result (λ place. or_null Text station ∷ or_null number_value numbers.dock
        ∷ or_null number_value numbers.rental ∷ or_null number_value numbers.truck
        ∷ or_null number_value numbers.order ∷ [] ≡ place_columns place) }
{
    let PlaceNumbers {
        dock,
        rental,
        truck,
        order,
    } = numbers;
    match (station, dock, rental, truck, order) {
        (Some(station), Some(dock), None, None, None) => Some(Place::Dock { station, dock }),
        (None, None, Some(rental), None, None) => Some(Place::Rental { rental }),
        (None, None, None, Some(truck), Some(order)) => Some(Place::Truck { truck, order }),
        (None, None, None, None, None) => Some(Place::Depot),
        _ => None,
    }
}

/// The place in the stored row of a bicycle; any row that doesn't tell exactly one place is `StoreFailed`.
pub(crate) fn place_at(alloc: Global, row: &Row) -> Result<Place, StatementFault>
    ensures { IfOk result (λ place. HoldsPlace row.now place) }
{
    let numbers = numbers_at(row)?;
    let station = optional_ident_at(alloc, row, bikes::STATION_ID)?;
    place_of(station, numbers).ok_or(StatementFault::StoreFailed)
}
