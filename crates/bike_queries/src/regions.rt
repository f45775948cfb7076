//! The regions in byte order of their identifiers, one after another.

ghost use Rattle.std.specs.Prelude.{◌≡◌, option_map};
ghost use Rattle.bike_book.specs.Rows.{region_row};
ghost use Rattle.bike_book.specs.Stored.{stored_region};
ghost use Rattle.bike_schema.specs.Answers.{Answers, IsReadOf};
ghost use Rattle.bike_queries.specs.After.{IsNext, first_after};

use crate::after::start_of;
use bike_book::columns::regions;
use bike_catalogue::Region;
use bike_fields::Ident;
use bike_fleet_reads::find_region_row_from;
use bike_schema::{StatementFault, ident_at, name_at};
use sqlite::{Alter, Connection, Row};
use std::alloc::Global;

/// The row of the first region whose identifier comes after this one, or of the first of all.
fn select_region<S: Alter>(
    conn: &mut Connection<S>,
    after: Option<&Ident>,
) -> Result<Option<Row>, StatementFault>
    ensures { Answers S.Store conn.old conn.new result
        (λ s m row. row ≡ option_map stored_region (first_after (option_map (λ id. id.now) after.entry) s.regions)) }
{
    let start = start_of(after);
    find_region_row_from(conn, start.as_str())
}

/// The region that stands in a row of `regions`.
fn read_region(alloc: Global, row: &Row) -> Result<Region, StatementFault>
    ensures { IsReadOf (λ r. region_row r.region_id r) row.now result }
{
    let region_id = ident_at(alloc, row, regions::REGION_ID)?;
    let name = name_at(alloc, row, regions::NAME)?;
    Ok(Region::from_fields(region_id, name))
}

/// The first region whose identifier comes after this one, or the first of all; `None` where there is none. `NoMemory`
/// where its texts find no room; every other fault is the database's.
pub fn find_region_after<S: Alter>(
    alloc: Global,
    conn: &mut Connection<S>,
    after: Option<&Ident>,
) -> Result<Option<Region>, StatementFault>
    ensures { Answers S.Store conn.old conn.new result
        (λ s m x. IsNext (λ r. r.region_id) (first_after (option_map (λ id. id.now) after.entry) s.regions) x) }
{
    match select_region(conn, after)? {
        Some(row) => Ok(Some(read_region(alloc, &row)?)),
        None => Ok(None),
    }
}
