//! The statements on `orders`.

ghost use Rattle.std.specs.Prelude.{◌≡◌, [], ◌∷◌, true, IfOk, codes};
ghost use Rattle.sqlite.specs.declared.types.Value.TheVariants.{Text};
ghost use Rattle.sqlite.specs.Order.{column};
ghost use Rattle.bike_operator.specs.Operator.{item_numbered, last_number};
ghost use Rattle.bike_book.specs.Tables.{Orders};
ghost use Rattle.bike_book.specs.Rows.{number_value};
ghost use Rattle.bike_book.specs.Found.{row_under, last_row};
ghost use Rattle.bike_schema.specs.Answers.{Answers};
ghost use Rattle.bike_fleet_reads.specs.Holds.{HoldsAny, HoldsEnd, HoldsOrder, HoldsOrderNumbers};

use crate::columns::{last_of, whole_at};
use bike_book::columns::orders;
use bike_fields::{OrderNumber, OrderQuantity, TruckNumber};
use bike_fixed::Within;
use bike_operator::Order;
use bike_schema::{StatementFault, flag_at, ident_at, number_at};
use bike_sql::lookup::first_row;
use bike_texts::OrderEnd;
use sqlite::types::ValueRef;
use sqlite::{Alter, Connection, Row, params};
use std::alloc::Global;

/// The columns of an order that are numbers or a flag.
#[derive(Clone, Copy)]
struct OrderNumbers {
    truck: TruckNumber,
    count: OrderQuantity,
    delivered: u32,
    is_open: bool,
}

/// The order's row.
fn select_order<S: Alter>(
    conn: &mut Connection<S>,
    order: OrderNumber,
) -> Result<Option<Row>, StatementFault>
    ensures { Answers S.Store conn.old conn.new result
        (λ s m row. row ≡ row_under s m Orders (number_value order ∷ [])) }
{
    first_row(
        conn,
        "SELECT * FROM orders WHERE ord = ?1",
        params![order.get()],
    )
}

/// The row of the last order.
fn select_last_order<S: Alter>(conn: &mut Connection<S>) -> Result<Option<Row>, StatementFault>
    ensures { Answers S.Store conn.old conn.new result (λ s m row. row ≡ last_row s m Orders) }
{
    first_row(conn, "SELECT * FROM orders ORDER BY ord DESC LIMIT 1", &[])
}

/// Whether the column is `*`, which stands for the depot.
fn is_depot_at(row: &Row, at: usize) -> bool
    ensures { result ≡ true → column row.now at ≡ Text (codes "*") }
{
    match row.get_ref(at) {
        Ok(ValueRef::Text(text)) => text == "*".as_bytes(),
        _ => false,
    }
}

/// The column as an end of an order.
fn end_at(alloc: Global, row: &Row, at: usize) -> Result<OrderEnd, StatementFault>
    ensures { IfOk result (λ end. HoldsEnd (column row.now at) end) }
{
    if is_depot_at(row, at) {
        return Ok(OrderEnd::Depot);
    }
    let station = ident_at(alloc, row, at)?;
    Ok(OrderEnd::Station(station))
}

/// The columns of the stored row that are numbers or a flag.
fn numbers_at(row: &Row) -> Result<OrderNumbers, StatementFault>
    ensures { IfOk result (λ numbers. HoldsOrderNumbers row.now numbers) }
{
    let truck = number_at(row, orders::TRUCK)?;
    let count = number_at(row, orders::QUANTITY)?;
    let delivered = whole_at(row, orders::DELIVERED)?;
    let is_open = flag_at(row, orders::IS_OPEN)?;
    Ok(OrderNumbers {
        truck,
        count,
        delivered,
        is_open,
    })
}

/// The stored row as an order.
fn order_at(alloc: Global, row: &Row) -> Result<Order, StatementFault>
    ensures { IfOk result (λ order. HoldsOrder row.now order) }
{
    let numbers = numbers_at(row)?;
    let from_end = end_at(alloc, row, orders::FROM_END)?;
    let to_end = end_at(alloc, row, orders::TO_END)?;
    let type_id = ident_at(alloc, row, orders::TYPE_ID)?;
    Ok(Order {
        truck: numbers.truck,
        from_end,
        to_end,
        type_id,
        count: numbers.count,
        delivered: numbers.delivered,
        is_open: numbers.is_open,
    })
}

/// The stored row as an order, where there is one.
fn order_of(alloc: Global, row: &Option<Row>) -> Result<Option<Order>, StatementFault>
    ensures { IfOk result (λ order. HoldsAny HoldsOrder row.now order) }
{
    match row {
        Some(row) => {
            let order = order_at(alloc, row)?;
            Ok(Some(order))
        }
        None => Ok(None),
    }
}

/// The order with this number.
pub fn find_order<S: Alter>(
    alloc: Global,
    conn: &mut Connection<S>,
    order: OrderNumber,
) -> Result<Option<Order>, StatementFault>
    ensures { Answers S.Store conn.old conn.new result (λ s m x. x ≡ item_numbered order s.orders) }
{
    let row = select_order(conn, order)?;
    order_of(alloc, &row)
}

/// How many orders there are, by the last one's number.
pub fn order_count<S: Alter>(conn: &mut Connection<S>) -> Result<u32, StatementFault>
    ensures { Answers S.Store conn.old conn.new result (λ s m x. x ≡ last_number s.orders) }
{
    let row = select_last_order(conn)?;
    last_of(&row)
}
