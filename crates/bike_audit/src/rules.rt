//! The rules of each table.

ghost use Rattle.bike_sql.specs.Calls.{ReadsWhere};
ghost use Rattle.bike_schema.specs.Tables.{IsOurs};
ghost use Rattle.bike_judges.specs.Verdicts.{JudgesTable};
ghost use Rattle.bike_recognition.specs.Names.{table_named};

use bike_catalogue_rules::{
    judge_meta, judge_names, judge_plans, judge_regions, judge_segments, judge_system, judge_types,
};
use bike_fleet_rules::{judge_bikes, judge_orders, judge_trucks};
use bike_judges::BadKey;
use bike_ledger_rules::{judge_books, judge_entries, judge_history, judge_rentals, judge_riders};
use bike_recognition::TableName;
use bike_schema::StatementFault;
use bike_station_rules::{judge_docks, judge_stations};
use sqlite::{Alter, Connection};
use std::alloc::Global;

/// The first bad key of the table, where all tables before it are good.
pub(crate) fn judge_table<S: Alter>(
    alloc: Global,
    conn: &mut Connection<S>,
    table: TableName,
) -> Result<Option<BadKey>, StatementFault>
    ensures { ReadsWhere S.Store IsOurs conn.old conn.new result (JudgesTable (table_named table)) }
{
    match table {
        TableName::Meta => judge_meta(conn),
        TableName::System => judge_system(conn),
        TableName::Plans => judge_plans(conn),
        TableName::Segments => judge_segments(conn),
        TableName::Types => judge_types(conn),
        TableName::Regions => judge_regions(conn),
        TableName::Stations => judge_stations(alloc, conn),
        TableName::Docks => judge_docks(conn),
        TableName::Bikes => judge_bikes(conn),
        TableName::Trucks => judge_trucks(alloc, conn),
        TableName::Riders => judge_riders(alloc, conn),
        TableName::Rentals => judge_rentals(alloc, conn),
        TableName::Orders => judge_orders(alloc, conn),
        TableName::Entries => judge_entries(alloc, conn),
        TableName::History => judge_history(alloc, conn),
        TableName::MoreNames => judge_names(alloc, conn),
        TableName::Books => judge_books(conn),
    }
}
