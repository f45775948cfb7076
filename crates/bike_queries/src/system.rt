//! The system, as it was set.

ghost use Rattle.std.specs.Prelude.{◌≡◌, [], ◌∷◌};
ghost use Rattle.bike_book.specs.Tables.{System as SystemTable};
ghost use Rattle.bike_book.specs.Rows.{number_value, system_row};
ghost use Rattle.bike_book.specs.Found.{row_under};
ghost use Rattle.bike_schema.specs.Answers.{Answers, IsReadOf};

use bike_book::columns::system;
use bike_catalogue::System;
use bike_fields::{FieldFault, TimeToLive};
use bike_schema::{StatementFault, number_at, str_at};
use bike_sql::lookup::first_row;
use sqlite::{Alter, Connection, Row, params};
use std::alloc::Global;

/// The one row of `system`, if the system is set.
fn select_system<S: Alter>(conn: &mut Connection<S>) -> Result<Option<Row>, StatementFault>
    ensures { Answers S.Store conn.old conn.new result
        (λ s m row. row ≡ row_under s m SystemTable (number_value 1 ∷ [])) }
{
    first_row(conn, "SELECT * FROM system WHERE one = ?1", params![1_i64])
}

/// The system that stands in a row of `system`.
fn read_system(alloc: Global, row: &Row) -> Result<System, StatementFault>
    ensures { IsReadOf system_row row.now result }
{
    let system_id = str_at(row, system::SYSTEM_ID)?;
    let language = str_at(row, system::LANGUAGE)?;
    let name = str_at(row, system::NAME)?;
    let opening_hours = str_at(row, system::HOURS)?;
    let feed_contact_email = str_at(row, system::CONTACT)?;
    let timezone = str_at(row, system::ZONE)?;
    let currency = str_at(row, system::CURRENCY)?;
    let base_url = str_at(row, system::BASE_URL)?;
    let ttl: TimeToLive = number_at(row, system::TTL)?;
    match System::new(
        alloc,
        system_id,
        language,
        name,
        opening_hours,
        feed_contact_email,
        timezone,
        currency,
        base_url,
        ttl.get(),
    ) {
        Ok(system) => Ok(system),
        Err(FieldFault::NoMemory) => Err(StatementFault::NoMemory),
        Err(FieldFault::Broken { .. }) => Err(StatementFault::StoreFailed),
    }
}

/// The system, if it is set. `NoMemory` where its texts find no room; every other fault is the database's.
pub fn find_system<S: Alter>(
    alloc: Global,
    conn: &mut Connection<S>,
) -> Result<Option<System>, StatementFault>
    ensures { Answers S.Store conn.old conn.new result (λ s m x. x ≡ s.system) }
{
    match select_system(conn)? {
        Some(row) => Ok(Some(read_system(alloc, &row)?)),
        None => Ok(None),
    }
}
