//! The statements on `trucks`.

ghost use Rattle.std.specs.Prelude.{◌≡◌, [], ◌∷◌, IfOk};
ghost use Rattle.bike_operator.specs.declared.limits.TheConstants.{MOST_TRUCKS};
ghost use Rattle.bike_operator.specs.View.{is_at_limit, truck_at};
ghost use Rattle.bike_book.specs.Tables.{Trucks};
ghost use Rattle.bike_book.specs.Rows.{number_value};
ghost use Rattle.bike_book.specs.Found.{row_under, rows_of};
ghost use Rattle.bike_schema.specs.Answers.{Answers};
ghost use Rattle.bike_fleet_reads.specs.Holds.{HoldsAny, HoldsTruck};

use bike_book::columns::trucks;
use bike_fields::TruckNumber;
use bike_operator::{MOST_TRUCKS, TruckView};
use bike_schema::{ABOVE_TEXTS, StatementFault, are_at_least, number_at};
use bike_sql::lookup::first_row;
use sqlite::{Alter, Connection, Row, params};

/// The trucks whose numbers lie between two values, both among them, in the order of their numbers.
const TRUCKS_WITHIN: &str = "SELECT * FROM trucks WHERE truck >= ?1 AND truck <= ?2 ORDER BY truck";

/// The truck's row.
fn select_truck<S: Alter>(
    conn: &mut Connection<S>,
    truck: TruckNumber,
) -> Result<Option<Row>, StatementFault>
    ensures { Answers S.Store conn.old conn.new result
        (λ s m row. row ≡ row_under s m Trucks (number_value truck ∷ [])) }
{
    first_row(conn, TRUCKS_WITHIN, params![truck.get(), truck.get()])
}

/// The stored row as a truck.
fn truck_of(row: &Option<Row>) -> Result<Option<TruckView>, StatementFault>
    ensures { IfOk result (λ truck. HoldsAny HoldsTruck row.now truck) }
{
    match row {
        Some(row) => {
            let capacity = number_at(row, trucks::CAPACITY)?;
            Ok(Some(TruckView { capacity }))
        }
        None => Ok(None),
    }
}

/// The rows of all trucks.
fn select_trucks<S: Alter>(conn: &mut Connection<S>) -> Result<Vec<Row>, StatementFault>
    ensures { Answers S.Store conn.old conn.new result (λ s m rows. rows.items ≡ rows_of s m Trucks) }
{
    let rows = conn.query_all(TRUCKS_WITHIN, params![0_u32, ABOVE_TEXTS])?;
    Ok(rows)
}

/// The truck with this number.
pub fn find_truck<S: Alter>(
    conn: &mut Connection<S>,
    truck: TruckNumber,
) -> Result<Option<TruckView>, StatementFault>
    ensures { Answers S.Store conn.old conn.new result (λ s m x. x ≡ truck_at s truck) }
{
    let row = select_truck(conn, truck)?;
    truck_of(&row)
}

/// Whether there are as many trucks as there may be, by the rows of all of them.
pub fn are_trucks_full<S: Alter>(conn: &mut Connection<S>) -> Result<bool, StatementFault>
    ensures { Answers S.Store conn.old conn.new result (λ s m x. x ≡ is_at_limit MOST_TRUCKS s.trucks) }
{
    let rows = select_trucks(conn)?;
    Ok(are_at_least(rows.as_slice(), MOST_TRUCKS))
}
