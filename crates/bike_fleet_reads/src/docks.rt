//! The statement on `docks`.

ghost use Rattle.std.specs.Prelude.{◌≡◌, [], ◌∷◌, IfOk};
ghost use Rattle.sqlite.specs.declared.types.Value.TheVariants.{Text};
ghost use Rattle.bike_book.specs.Tables.{Docks};
ghost use Rattle.bike_book.specs.Rows.{number_value};
ghost use Rattle.bike_book.specs.Found.{row_under};
ghost use Rattle.bike_schema.specs.Answers.{Answers};
ghost use Rattle.bike_fleet_reads.specs.Fleet.{IsMark};
ghost use Rattle.bike_fleet_reads.specs.Holds.{HoldsAny, HoldsMark};

use bike_book::columns::docks;
use bike_fields::Ident;
use bike_schema::{StatementFault, flag_at};
use bike_sql::lookup::first_row;
use sqlite::{Alter, Connection, Row, params};

/// The dock's row.
fn select_dock<S: Alter>(
    conn: &mut Connection<S>,
    station: &Ident,
    dock: u32,
) -> Result<Option<Row>, StatementFault>
    ensures { Answers S.Store conn.old conn.new result
        (λ s m row. row ≡ row_under s m Docks (Text station.now ∷ number_value dock ∷ [])) }
{
    first_row(
        conn,
        "SELECT * FROM docks WHERE station_id = ?1 AND dock = ?2",
        params![station.as_str(), dock],
    )
}

/// Whether the stored row says that the dock is broken.
fn mark_of(row: &Option<Row>) -> Result<Option<bool>, StatementFault>
    ensures { IfOk result (λ mark. HoldsAny HoldsMark row.now mark) }
{
    match row {
        Some(row) => {
            let is_broken = flag_at(row, docks::BROKEN)?;
            Ok(Some(is_broken))
        }
        None => Ok(None),
    }
}

/// Whether the row of a station's dock says that it is broken; `None` where the dock has no row, and then it works.
pub fn find_mark<S: Alter>(
    conn: &mut Connection<S>,
    station: &Ident,
    dock: u32,
) -> Result<Option<bool>, StatementFault>
    ensures { Answers S.Store conn.old conn.new result (λ s m x. IsMark s m station.now dock x) }
{
    let row = select_dock(conn, station, dock)?;
    mark_of(&row)
}
