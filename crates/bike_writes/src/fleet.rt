//! The statements on `bikes` and `trucks`.

ghost use Rattle.std.specs.Prelude.{◌≡◌};
ghost use Rattle.bike_operator.specs.Changes.{place_of};
ghost use Rattle.bike_accepted.specs.declared.change.Change.TheVariants as change;
ghost use Rattle.bike_book.specs.declared.row_change.RowChange.TheVariants as row;
ghost use Rattle.bike_book.specs.Rows.{place_columns};
ghost use Rattle.bike_book.specs.Writes.{record_write, write_of};
ghost use Rattle.bike_schema.specs.Calls.{Writes};
ghost use Rattle.bike_writes.specs.Columns.{columns_of};

use crate::columns::state_number;
use bike_book::table;
use bike_fields::Ident;
use bike_operator::{BikeState, NewPlace};
use bike_schema::{OpenTransaction, StatementFault};
use bike_sql::write::run;
use sqlite::{Alter, params};

/// The columns of a place. Those of the other places are NULL.
#[derive(Clone, Copy)]
struct PlaceColumns<'a> {
    station: Option<&'a str>,
    dock: Option<u32>,
    rental: Option<u32>,
    truck: Option<u32>,
    order: Option<u32>,
}

/// The columns of a bicycle's place.
fn columns_of<'a>(place: &NewPlace<'a>) -> PlaceColumns<'a>
    ensures { columns_of result ≡ place_columns (place_of place.now) }
{
    let mut columns = PlaceColumns {
        station: None,
        dock: None,
        rental: None,
        truck: None,
        order: None,
    };
    match place {
        NewPlace::Dock { station, dock } => {
            columns.station = Some(station.as_str());
            columns.dock = Some(*dock);
        }
        NewPlace::Rental { rental } => columns.rental = Some(*rental),
        NewPlace::Truck { truck, order } => {
            columns.truck = Some(*truck);
            columns.order = Some(*order);
        }
        NewPlace::Depot => {}
    }
    columns
}

/// Adds a bicycle: fit, in the depot.
pub(crate) fn add_bike<S: Alter>(
    tx: &mut OpenTransaction<'_, S>,
    bike: u32,
    type_id: &Ident,
) -> Result<(), StatementFault>
    ensures { Writes S.Store tx.old.conn tx.new.conn result (record_write (change.AddBike bike type_id.entry)) }
{
    run(
        tx,
        table!(insert bikes),
        params![
            bike,
            type_id.as_str(),
            0_i64,
            None::<i64>,
            None::<i64>,
            None::<i64>,
            None::<i64>,
            None::<i64>
        ],
    )
}

/// Sets a bicycle's state and place.
pub(crate) fn set_bike<S: Alter>(
    tx: &mut OpenTransaction<'_, S>,
    bike: u32,
    state: BikeState,
    place: &NewPlace<'_>,
) -> Result<(), StatementFault>
    ensures { Writes S.Store tx.old.conn tx.new.conn result (write_of (row.SetBike bike state place.now)) }
{
    let columns = columns_of(place);
    run(
        tx,
        "UPDATE bikes SET state = ?2, station_id = ?3, dock = ?4, rental = ?5, truck = ?6, ord = ?7 WHERE bike = ?1",
        params![
            bike,
            state_number(state),
            columns.station,
            columns.dock,
            columns.rental,
            columns.truck,
            columns.order
        ],
    )
}

/// Adds a truck.
pub(crate) fn add_truck<S: Alter>(
    tx: &mut OpenTransaction<'_, S>,
    truck: u32,
    capacity: u32,
) -> Result<(), StatementFault>
    ensures { Writes S.Store tx.old.conn tx.new.conn result (record_write (change.AddTruck truck capacity)) }
{
    run(tx, table!(insert trucks), params![truck, capacity])
}
