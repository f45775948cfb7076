//! What entries and rentals name, read once from the tables before theirs.

ghost use Rattle.std.specs.Prelude.{◌≡◌};
ghost use Rattle.std.specs.FinSet as set;
ghost use Rattle.bike_sql.specs.Calls.{ReadsWhere};
ghost use Rattle.bike_schema.specs.Tables.{IsOurs, tables_of};
ghost use Rattle.bike_readings.specs.Views.{place_of};
ghost use Rattle.bike_ledger_rules.specs.Known.{value_at, has_rider, is_listed, with_rider, rental_at, bike_rental};
ghost use Rattle.bike_ledger_rules.specs.Known.{with_bike, has_plan, with_plan, has_station, with_station, known_in};
ghost use Rattle.bike_ledger_rules.specs.Known.{held_in};

use crate::idents::Idents;
use crate::numbers::ByNumber;
use crate::riders::RIDER_AT;
use bike_book::columns::{bikes, riders, stations};
use bike_judges::{LineFold, Query, fold_lines};
use bike_readings::{Part, StoredPlace, read_bike, read_plan, read_rider, read_station};
use bike_schema::StatementFault;
use sqlite::{Alter, Connection, Row};
use std::alloc::Global;

/// Where the row of a bicycle stands in a line with its truck.
const BIKE_AT: usize = 0;

/// Where the row of a station stands in a line with its region.
const STATION_AT: usize = 0;

/// The numbers of riders.
#[derive(Debug, Drop)]
struct RiderSet {
    numbers: ByNumber<()>,
}

impl LineFold for RiderSet {
    ghost after = { with_rider };

    fn add(&mut self, line: &Row) -> Result<(), StatementFault> {
        if let Some(row) = read_rider(Part::of(line, RIDER_AT, riders::COLUMNS)) {
            self.numbers.set(row.rider.get(), ())?;
        }
        Ok(())
    }
}

/// The numbers of bicycles, each with the rental in which it is, if any.
#[derive(Debug, Drop)]
struct BikeSet {
    rentals: ByNumber<Option<u32>>,
}

/// The rental in which a bicycle is, if it is in one.
fn rental_at(place: &StoredPlace<'_>) -> Option<u32>
    ensures { result ≡ rental_at (place_of place.now) }
{
    match place {
        StoredPlace::Rental { rental } => Some(rental.get()),
        _ => None,
    }
}

impl LineFold for BikeSet {
    ghost after = { with_bike };

    fn add(&mut self, line: &Row) -> Result<(), StatementFault> {
        if let Some(row) = read_bike(Part::of(line, BIKE_AT, bikes::COLUMNS)) {
            self.rentals.set(row.bike.get(), rental_at(&row.place))?;
        }
        Ok(())
    }
}

/// The identifiers of plans.
#[derive(Debug, Drop)]
struct PlanSet {
    idents: Idents,
}

impl LineFold for PlanSet {
    ghost after = { with_plan };

    fn add(&mut self, line: &Row) -> Result<(), StatementFault> {
        if let Some(row) = read_plan(Part::whole(line)) {
            self.idents.insert(row.plan_id)?;
        }
        Ok(())
    }
}

/// The identifiers of stations.
#[derive(Debug, Drop)]
struct StationSet {
    idents: Idents,
}

impl LineFold for StationSet {
    ghost after = { with_station };

    fn add(&mut self, line: &Row) -> Result<(), StatementFault> {
        if let Some(row) = read_station(Part::of(line, STATION_AT, stations::COLUMNS)) {
            self.idents.insert(row.station_id)?;
        }
        Ok(())
    }
}

/// What rentals name.
#[derive(Debug, Drop)]
pub(crate) struct Names {
    pub(crate) riders: ByNumber<()>,
    /// The bicycles, each with the rental in which it is, if any.
    pub(crate) bikes: ByNumber<Option<u32>>,
    pub(crate) plans: Idents,
    pub(crate) stations: Idents,
}

/// The numbers of all riders. Of the lines with their plans it takes the riders. `NoMemory` where memory is refused,
/// `StoreFailed` where the database fails.
pub(crate) fn read_riders<S: Alter>(
    alloc: Global,
    conn: &mut Connection<S>,
) -> Result<ByNumber<()>, StatementFault>
    ensures { ReadsWhere S.Store IsOurs conn.old conn.new result
        (λ db riders. is_listed riders ≡ has_rider (tables_of db)) }
{
    let none = RiderSet {
        numbers: ByNumber::new(alloc),
    };
    let riders = fold_lines(conn, Query::RiderRows, none)?;
    Ok(riders.numbers)
}

/// The numbers of all bicycles, each with the rental in which it is, if any. Of the lines with their trucks it takes
/// the bicycles.
fn read_bikes<S: Alter>(
    alloc: Global,
    conn: &mut Connection<S>,
) -> Result<ByNumber<Option<u32>>, StatementFault>
    ensures { ReadsWhere S.Store IsOurs conn.old conn.new result
        (λ db bikes. value_at bikes ≡ bike_rental (tables_of db)) }
{
    let none = BikeSet {
        rentals: ByNumber::new(alloc),
    };
    let bikes = fold_lines(conn, Query::BikeTrucks, none)?;
    Ok(bikes.rentals)
}

/// The identifiers of all plans.
fn read_plans<S: Alter>(alloc: Global, conn: &mut Connection<S>) -> Result<Idents, StatementFault>
    ensures { ReadsWhere S.Store IsOurs conn.old conn.new result
        (λ db plans. set.contains plans ≡ has_plan (tables_of db)) }
{
    let none = PlanSet {
        idents: Idents::new(alloc),
    };
    let plans = fold_lines(conn, Query::Plans, none)?;
    Ok(plans.idents)
}

/// The identifiers of all stations. Of the lines with their regions it takes the stations.
fn read_stations<S: Alter>(
    alloc: Global,
    conn: &mut Connection<S>,
) -> Result<Idents, StatementFault>
    ensures { ReadsWhere S.Store IsOurs conn.old conn.new result
        (λ db stations. set.contains stations ≡ has_station (tables_of db)) }
{
    let none = StationSet {
        idents: Idents::new(alloc),
    };
    let stations = fold_lines(conn, Query::StationRows, none)?;
    Ok(stations.idents)
}

/// All that rentals name. `NoMemory` where memory is refused, `StoreFailed` where the database fails.
pub(crate) fn read_names<S: Alter>(
    alloc: Global,
    conn: &mut Connection<S>,
) -> Result<Names, StatementFault>
    ensures { ReadsWhere S.Store IsOurs conn.old conn.new result (λ db names. held_in names ≡ known_in (tables_of db)) }
{
    let riders = read_riders(alloc, conn)?;
    let bikes = read_bikes(alloc, conn)?;
    let plans = read_plans(alloc, conn)?;
    let stations = read_stations(alloc, conn)?;
    Ok(Names {
        riders,
        bikes,
        plans,
        stations,
    })
}
