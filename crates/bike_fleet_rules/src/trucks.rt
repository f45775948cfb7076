//! The rules of trucks.

ghost use Rattle.std.specs.Prelude.{◌≡◌, OnOk};
ghost use Rattle.bike_readings.specs.Views.{truck_of, place_of};
ghost use Rattle.bike_fleet_rules.specs.Loads.{truck_begins, truck_more, truck_good, truck_key, loads};
ghost use Rattle.bike_operator.specs.Counts.{is_on_truck};
ghost use Rattle.bike_book.specs.Tables.{Trucks};
ghost use Rattle.bike_sql.specs.Calls.{ReadsWhere};
ghost use Rattle.bike_schema.specs.Tables.{IsOurs};
ghost use Rattle.bike_judges.specs.Verdicts.{JudgesTable};

use crate::counted::{ROW_AT, TABLE, counted_bike, is_of, number_in};
use bike_book::columns::trucks;
use bike_fields::{TruckCapacity, TruckNumber};
use bike_fixed::Within;
use bike_judges::{Account, BadKey, Opening, Query, StretchJudge, judge_lines};
use bike_operator::MOST_TRUCKS;
use bike_readings::{Part, StoredPlace, read_truck};
use bike_schema::StatementFault;
use sqlite::{Alter, Connection, Row};
use std::alloc::Global;

/// A truck with the bicycles on it so far.
#[derive(Debug, Drop)]
pub(crate) struct TruckAccount {
    truck: TruckNumber,
    capacity: TruckCapacity,
    /// How many bicycles are on it.
    load: u64,
}

/// Whether the place is on the truck.
fn is_on_truck(place: &StoredPlace<'_>, truck: TruckNumber) -> bool
    ensures { result ≡ is_on_truck truck (place_of place.now) }
{
    match place {
        StoredPlace::Truck {
            truck: on,
            order: _,
        } => on.get() == truck.get(),
        _ => false,
    }
}

/// Whether the line is the truck's, of a bicycle on it.
fn loads(line: &Row, truck: TruckNumber) -> bool
    ensures { result ≡ loads (is_on_truck truck) truck line.now }
{
    if !is_of(line, truck.get()) {
        return false;
    }
    match counted_bike(line, ROW_AT) {
        Some(bike) => is_on_truck(&bike.place, truck),
        None => false,
    }
}

impl Account for TruckAccount {
    ghost begins = { truck_begins };

    ghost more = { truck_more };

    ghost good = { truck_good };

    ghost key = { truck_key };

    fn begin(_alloc: Global, line: &Row) -> Result<Opening<TruckAccount>, StatementFault> {
        let place: Option<Within<0, 0>> = number_in(line, TABLE);
        if place.is_none() {
            return Ok(Opening::Item);
        }
        match read_truck(Part::of(line, ROW_AT, trucks::COLUMNS)) {
            Some(truck) => Ok(Opening::Head(TruckAccount {
                truck: truck.truck,
                capacity: truck.capacity,
                load: 0,
            })),
            None => Ok(Opening::Unread),
        }
    }

    fn add(&mut self, line: &Row) -> Result<(), StatementFault> {
        if loads(line, self.truck) {
            let Some(load) = self.load.checked_add(1) else {
                return Err(StatementFault::StoreFailed);
            };
            self.load = load;
        }
        Ok(())
    }

    fn is_good(&self, before: u64) -> bool {
        before < u64::from(MOST_TRUCKS) && self.load <= u64::from(self.capacity.get())
    }

    fn bad_key(self) -> BadKey {
        BadKey::Number(i64::from(self.truck.get()))
    }
}

/// The first bad key of `trucks`, where all tables before it are good: a row that spells no truck, a truck past the
/// limit, or one that holds more bicycles than it has room for. `NoMemory` where memory is refused; every other fault
/// is the database's.
pub fn judge_trucks<S: Alter>(
    alloc: Global,
    conn: &mut Connection<S>,
) -> Result<Option<BadKey>, StatementFault>
    ensures { ReadsWhere S.Store IsOurs conn.old conn.new result (JudgesTable Trucks) }
{
    let judge: StretchJudge<TruckAccount> = StretchJudge::new(alloc);
    judge_lines(conn, Query::Trucks, judge)
}
