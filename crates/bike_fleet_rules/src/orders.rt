//! The rules of orders.

ghost use Rattle.std.specs.Prelude.{◌≡◌, OnOk};
ghost use Rattle.bike_operator.specs.Counts.{is_for_order};
ghost use Rattle.bike_readings.specs.Views.{order_of, place_of};
ghost use Rattle.bike_fleet_rules.specs.Loads.{order_begins, order_more, order_good, order_key, loads};
ghost use Rattle.bike_book.specs.Tables.{Orders};
ghost use Rattle.bike_sql.specs.Calls.{ReadsWhere};
ghost use Rattle.bike_schema.specs.Tables.{IsOurs};
ghost use Rattle.bike_judges.specs.Verdicts.{JudgesTable};

use crate::counted::{ROW_AT, TABLE, counted_bike, is_of, number_in};
use crate::order_tests::{OrderEnds, OrderNames};
use bike_book::columns::orders;
use bike_fields::{OrderNumber, OrderQuantity};
use bike_fixed::Within;
use bike_judges::{Account, BadKey, LineJudge, Opening, Query, StretchJudge, judge_lines, least};
use bike_readings::{Part, StoredPlace, read_order};
use bike_schema::StatementFault;
use sqlite::{Alter, Connection, Row};
use std::alloc::Global;

/// An order with the bicycles on trucks for it so far.
#[derive(Debug, Drop)]
pub(crate) struct OrderAccount {
    order: OrderNumber,
    /// How many bicycles it asks for.
    count: OrderQuantity,
    /// How many were brought or are on trucks for it.
    load: u64,
}

/// Whether the place is on a truck for the order.
fn is_for_order(place: &StoredPlace<'_>, order: OrderNumber) -> bool
    ensures { result ≡ is_for_order order (place_of place.now) }
{
    match place {
        StoredPlace::Truck {
            truck: _,
            order: meant,
        } => meant.get() == order.get(),
        _ => false,
    }
}

/// Whether the line is the order's, of a bicycle on a truck for it.
fn loads(line: &Row, order: OrderNumber) -> bool
    ensures { result ≡ loads (is_for_order order) order line.now }
{
    if !is_of(line, order.get()) {
        return false;
    }
    match counted_bike(line, ROW_AT) {
        Some(bike) => is_for_order(&bike.place, order),
        None => false,
    }
}

impl Account for OrderAccount {
    ghost begins = { order_begins };

    ghost more = { order_more };

    ghost good = { order_good };

    ghost key = { order_key };

    fn begin(_alloc: Global, line: &Row) -> Result<Opening<OrderAccount>, StatementFault> {
        let place: Option<Within<0, 0>> = number_in(line, TABLE);
        if place.is_none() {
            return Ok(Opening::Item);
        }
        match read_order(Part::of(line, ROW_AT, orders::COLUMNS)) {
            Some(order) => Ok(Opening::Head(OrderAccount {
                order: order.order,
                count: order.count,
                load: u64::from(order.delivered.get()),
            })),
            None => Ok(Opening::Unread),
        }
    }

    fn add(&mut self, line: &Row) -> Result<(), StatementFault> {
        if loads(line, self.order) {
            let Some(load) = self.load.checked_add(1) else {
                return Err(StatementFault::StoreFailed);
            };
            self.load = load;
        }
        Ok(())
    }

    fn is_good(&self, _before: u64) -> bool {
        self.load <= u64::from(self.count.get())
    }

    fn bad_key(self) -> BadKey {
        BadKey::Number(i64::from(self.order.get()))
    }
}

/// The first bad key of `orders`, where all tables before it are good: a row that spells no order, an order out of
/// number or past the limit, one whose truck, ends or type aren't there, or one of which more is brought or on trucks
/// than it asks for. `NoMemory` where memory is refused; every other fault is the database's.
pub fn judge_orders<S: Alter>(
    alloc: Global,
    conn: &mut Connection<S>,
) -> Result<Option<BadKey>, StatementFault>
    ensures { ReadsWhere S.Store IsOurs conn.old conn.new result (JudgesTable Orders) }
{
    let names = LineJudge::new(OrderNames);
    let named = judge_lines(conn, Query::OrderNames, names)?;
    let ends = LineJudge::new(OrderEnds);
    let ended = judge_lines(conn, Query::OrderEnds, ends)?;
    let loads: StretchJudge<OrderAccount> = StretchJudge::new(alloc);
    let loaded = judge_lines(conn, Query::OrderBikes, loads)?;
    Ok(least(least(named, ended), loaded))
}
