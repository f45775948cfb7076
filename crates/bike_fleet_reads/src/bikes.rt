//! The statements on `bikes`.

ghost use Rattle.std.specs.Prelude.{◌≡◌, [], ◌∷◌, IfOk, Some, option_map, slice_get, length, map, count_by, ◌≤◌};
ghost use Rattle.std.specs.FinMap.{get, len};
ghost use Rattle.sqlite.specs.declared.types.Value.TheVariants.{Text};
ghost use Rattle.sqlite_sql.specs.Aggregate.{count};
ghost use Rattle.bike_operator.specs.declared.limits.TheConstants.{MOST_BIKES};
ghost use Rattle.bike_operator.specs.Counts.{docked_at};
ghost use Rattle.bike_operator.specs.View.{is_at_limit};
ghost use Rattle.bike_book.specs.Tables.{Bikes};
ghost use Rattle.bike_book.specs.Rows.{number_value};
ghost use Rattle.bike_book.specs.Found.{last_row, row_count, row_under, rows_by};
ghost use Rattle.bike_schema.specs.Answers.{Answers};
ghost use Rattle.bike_fleet_reads.specs.Fleet.{IsTruckLoad, numbered_pair};
ghost use Rattle.bike_fleet_reads.specs.Holds.{HoldsAny, HoldsBike, HoldsNumbered, is_for, order_column};

use crate::columns::{is_full, last_of};
use crate::places::place_at;
use bike_book::columns::bikes;
use bike_fields::{BicycleNumber, Ident, OrderNumber, TruckNumber};
use bike_operator::{Bike, MOST_BIKES};
use bike_schema::{StatementFault, ident_at, number_at, state_at};
use bike_sql::lookup::first_row;
use sqlite::types::ValueRef;
use sqlite::{Alter, Connection, Row, params};
use std::alloc::Global;

/// A bicycle with its number.
#[derive(Drop)]
pub struct NumberedBike {
    /// Its number.
    pub number: BicycleNumber,
    /// The bicycle.
    pub bike: Bike,
}

/// How many bicycles are on a truck.
#[derive(Clone, Copy)]
pub struct TruckLoad {
    /// All of them.
    pub all: u32,
    /// Those for an order.
    pub for_order: u32,
}

/// The bicycle's row.
fn select_bike<S: Alter>(
    conn: &mut Connection<S>,
    bike: BicycleNumber,
) -> Result<Option<Row>, StatementFault>
    ensures { Answers S.Store conn.old conn.new result
        (λ s m row. row ≡ row_under s m Bikes (number_value bike ∷ [])) }
{
    first_row(
        conn,
        "SELECT * FROM bikes WHERE bike = ?1",
        params![bike.get()],
    )
}

/// The first row of a bicycle in this dock.
fn select_docked<S: Alter>(
    conn: &mut Connection<S>,
    station: &Ident,
    dock: u32,
) -> Result<Option<Row>, StatementFault>
    ensures { Answers S.Store conn.old conn.new result (λ s m row.
        row ≡ slice_get (rows_by s m Bikes (3 ∷ 4 ∷ []) (Text station.now ∷ number_value dock ∷ [])) 0) }
{
    first_row(
        conn,
        "SELECT * FROM bikes WHERE station_id = ?1 AND dock = ?2 ORDER BY bike LIMIT 1",
        params![station.as_str(), dock],
    )
}

/// The row of the last bicycle.
fn select_last_bike<S: Alter>(conn: &mut Connection<S>) -> Result<Option<Row>, StatementFault>
    ensures { Answers S.Store conn.old conn.new result (λ s m row. row ≡ last_row s m Bikes) }
{
    first_row(conn, "SELECT * FROM bikes ORDER BY bike DESC LIMIT 1", &[])
}

/// How many bicycles there are, as the database answers it.
fn count_bikes<S: Alter>(conn: &mut Connection<S>) -> Result<Option<Row>, StatementFault>
    ensures { Answers S.Store conn.old conn.new result (λ s m row. row ≡ Some (count (row_count s m Bikes) ∷ [])) }
{
    first_row(conn, "SELECT count(*) FROM bikes", &[])
}

/// The order of each bicycle on a truck, in the order of the bicycles' numbers.
fn select_orders<S: Alter>(
    conn: &mut Connection<S>,
    truck: TruckNumber,
) -> Result<Vec<Row>, StatementFault>
    ensures { Answers S.Store conn.old conn.new result
        (λ s m rows. rows.items ≡ map order_column (rows_by s m Bikes (6 ∷ []) (number_value truck ∷ []))) }
{
    let rows = conn.query_all(
        "SELECT ord FROM bikes WHERE truck = ?1 ORDER BY bike",
        params![truck.get()],
    )?;
    Ok(rows)
}

/// Whether the row holds this order alone.
fn is_for(row: &Row, order: OrderNumber) -> bool
    ensures { result ≡ is_for order row.now }
{
    match row.get_ref(0) {
        Ok(ValueRef::Int(number)) => number == i64::from(order.get()),
        _ => false,
    }
}

/// How many of the rows hold this order alone.
fn count_for(rows: &[Row], order: OrderNumber) -> usize
    ensures { result ≡ count_by (is_for order) rows.now }
{
    rows.iter().filter(|row| is_for(row, order)).count()
}

/// How many rows there are, and how many of them hold this order alone. More than 4,294,967,295 are `StoreFailed`.
fn load_of(rows: &[Row], order: OrderNumber) -> Result<TruckLoad, StatementFault>
    ensures { IfOk result (λ load. (load.all ≡ length rows.now) × (load.for_order ≡ count_by (is_for order) rows.now)) }
{
    let Ok(all) = u32::try_from(rows.len()) else {
        return Err(StatementFault::StoreFailed);
    };
    let Ok(for_order) = u32::try_from(count_for(rows, order)) else {
        return Err(StatementFault::StoreFailed);
    };
    Ok(TruckLoad { all, for_order })
}

/// The stored row as a bicycle.
fn bike_at(alloc: Global, row: &Row) -> Result<Bike, StatementFault>
    ensures { IfOk result (λ bike. HoldsBike row.now bike) }
{
    let state = state_at(row, bikes::STATE)?;
    let place = place_at(alloc, row)?;
    let type_id = ident_at(alloc, row, bikes::TYPE_ID)?;
    Ok(Bike {
        type_id,
        state,
        place,
    })
}

/// The stored row as a bicycle, where there is one.
fn bike_of(alloc: Global, row: &Option<Row>) -> Result<Option<Bike>, StatementFault>
    ensures { IfOk result (λ bike. HoldsAny HoldsBike row.now bike) }
{
    match row {
        Some(row) => {
            let bike = bike_at(alloc, row)?;
            Ok(Some(bike))
        }
        None => Ok(None),
    }
}

/// The stored row as a bicycle with its number, where there is one.
fn numbered_bike_of(
    alloc: Global,
    row: &Option<Row>,
) -> Result<Option<NumberedBike>, StatementFault>
    ensures { IfOk result (λ bike. HoldsAny HoldsNumbered row.now bike) }
{
    match row {
        Some(row) => {
            let number = number_at(row, bikes::BIKE)?;
            let bike = bike_at(alloc, row)?;
            Ok(Some(NumberedBike { number, bike }))
        }
        None => Ok(None),
    }
}

/// The bicycle with this number.
pub fn find_bike<S: Alter>(
    alloc: Global,
    conn: &mut Connection<S>,
    bike: BicycleNumber,
) -> Result<Option<Bike>, StatementFault>
    ensures { Answers S.Store conn.old conn.new result (λ s m x. x ≡ get s.bikes bike) }
{
    let row = select_bike(conn, bike)?;
    bike_of(alloc, &row)
}

/// The bicycle in a dock, with its number.
pub fn find_docked<S: Alter>(
    alloc: Global,
    conn: &mut Connection<S>,
    station: &Ident,
    dock: u32,
) -> Result<Option<NumberedBike>, StatementFault>
    ensures { Answers S.Store conn.old conn.new result
        (λ s m x. option_map numbered_pair x ≡ docked_at s station.now dock) }
{
    let row = select_docked(conn, station, dock)?;
    numbered_bike_of(alloc, &row)
}

/// The last bicycle's number, 0 where there is none. There are at most so many, since their numbers begin at 1.
fn last_bike<S: Alter>(conn: &mut Connection<S>) -> Result<u32, StatementFault>
    ensures { Answers S.Store conn.old conn.new result (λ s m x. len s.bikes ≤ x) }
{
    let row = select_last_bike(conn)?;
    last_of(&row)
}

/// Whether there are as many bicycles as there may be, by a count over all of them.
fn is_count_full<S: Alter>(conn: &mut Connection<S>) -> Result<bool, StatementFault>
    ensures { Answers S.Store conn.old conn.new result (λ s m x. x ≡ is_at_limit MOST_BIKES s.bikes) }
{
    let answer = count_bikes(conn)?;
    is_full(&answer, MOST_BIKES)
}

/// Whether there are as many bicycles as there may be.
pub fn are_bikes_full<S: Alter>(conn: &mut Connection<S>) -> Result<bool, StatementFault>
    ensures { Answers S.Store conn.old conn.new result (λ s m x. x ≡ is_at_limit MOST_BIKES s.bikes) }
{
    // A count goes over all bicycles, so it is asked only where the last number doesn't tell.
    let last = last_bike(conn)?;
    if last < MOST_BIKES {
        return Ok(false);
    }
    is_count_full(conn)
}

/// How many bicycles are on a truck, and how many of them for an order, by one read. Where the order is there and the
/// truck is its own, these are all of the order's: no bicycle of an order is on another truck.
pub fn find_truck_load<S: Alter>(
    conn: &mut Connection<S>,
    truck: TruckNumber,
    order: OrderNumber,
) -> Result<TruckLoad, StatementFault>
    ensures { Answers S.Store conn.old conn.new result (λ s m load. IsTruckLoad s truck order load) }
{
    let rows = select_orders(conn, truck)?;
    load_of(rows.as_slice(), order)
}
