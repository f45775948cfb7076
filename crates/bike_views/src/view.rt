//! The view of the stored operator for a command.

ghost use Rattle.bike_schema.specs.Answers.{Answers};
ghost use Rattle.bike_views.specs.Known.{IsKnown};
ghost use Rattle.bike_views.specs.ViewAndDocks.{IsFoundFor};

use crate::bikes::{find_bike_view, view_to_add_bike, view_to_retire_bike};
use crate::catalogue::{
    find_system_view, find_type_view, view_to_add_plan, view_to_add_region, view_to_add_type,
};
use crate::docks::view_to_mark_dock;
use crate::figures::KnownFigures;
use crate::names::{view_to_add_name, view_to_change_name};
use crate::orders::{
    view_to_add_truck, view_to_close_order, view_to_load, view_to_open_order, view_to_unload,
};
use crate::rentals::{view_to_end, view_to_recover, view_to_refund, view_to_start};
use crate::riders::{view_to_add_rider, view_to_set_rider, view_to_top_up};
use crate::stations::{
    find_station_view, view_to_add_docks, view_to_add_station, view_to_set_region,
};
use crate::view_and_docks::{ViewAndDocks, without_docks};
use bike_commands::Command;
use bike_schema::StatementFault;
use sqlite::{Alter, Connection};
use std::alloc::Global;

/// What the command names of the stored operator, each there or absent, and what is counted for it, by what is known of
/// it; where a station's row is read for what an acceptance changes, the station's docks beside. Where each open rental
/// is its rider's newest, a start reads the newest alone.
///
/// `NoMemory` comes where the engine or what is read wants memory that is refused, and `StoreFailed` where the engine
/// fails otherwise, or a row holds what the product never writes. In each case the tables are as before the call, or as
/// before the transaction.
pub fn find_view<S: Alter>(
    alloc: Global,
    conn: &mut Connection<S>,
    command: &Command,
    known: &KnownFigures,
) -> Result<ViewAndDocks, StatementFault>
    ensures { Answers S.Store conn.old conn.new result (λ s m x. IsKnown s known.now → IsFoundFor s m command.now x) }
{
    let figures = &known.figures;
    match command {
        Command::SetSystem(_) => without_docks(find_system_view(conn)),
        Command::AddPlan(plan) => without_docks(view_to_add_plan(conn, plan)),
        Command::AddType(added) => without_docks(view_to_add_type(conn, added)),
        Command::SetPlan { type_id, plan } => without_docks(find_type_view(conn, type_id, plan)),
        Command::AddStation(added) => without_docks(view_to_add_station(conn, added)),
        Command::SetStation { station, .. } => without_docks(find_station_view(conn, station)),
        Command::MarkDock { station, dock, .. } => view_to_mark_dock(alloc, conn, station, *dock),
        Command::AddBike { bike, type_id } => without_docks(view_to_add_bike(
            alloc, conn, *bike, type_id,
        )),
        Command::MarkBike { bike, .. } => find_bike_view(alloc, conn, *bike),
        Command::RetireBike { bike } => without_docks(view_to_retire_bike(alloc, conn, *bike)),
        Command::AddTruck { truck, .. } => without_docks(view_to_add_truck(conn, *truck)),
        Command::AddRider { rider } => without_docks(view_to_add_rider(conn, *rider)),
        Command::SetRider { rider, .. } => without_docks(view_to_set_rider(conn, *rider)),
        Command::TopUp { rider, .. } => without_docks(view_to_top_up(
            alloc,
            conn,
            *rider,
            figures.entries,
        )),
        Command::Start {
            rider,
            station,
            dock,
        } => view_to_start(alloc, conn, *rider, station, *dock, known),
        Command::End {
            bike,
            station,
            dock,
        } => view_to_end(alloc, conn, *bike, station, *dock, figures.entries),
        Command::Recover { rental } => without_docks(view_to_recover(
            alloc,
            conn,
            *rental,
            figures.entries,
        )),
        Command::Refund { rental, .. } => without_docks(view_to_refund(
            alloc,
            conn,
            *rental,
            figures.entries,
        )),
        Command::OpenOrder {
            truck,
            from_end,
            to_end,
            type_id,
            ..
        } => without_docks(view_to_open_order(
            conn,
            *truck,
            from_end,
            to_end,
            type_id,
            figures.orders,
        )),
        Command::Load { truck, order, bike } => view_to_load(alloc, conn, *truck, *order, *bike),
        Command::Unload {
            truck,
            order,
            bike,
            side,
            dock,
        } => view_to_unload(alloc, conn, *truck, *order, *bike, *side, *dock),
        Command::CloseOrder { order } => without_docks(view_to_close_order(alloc, conn, *order)),
        Command::AddRegion(added) => without_docks(view_to_add_region(conn, added)),
        Command::SetRegion { station, region } => without_docks(view_to_set_region(
            conn, station, region,
        )),
        Command::AddName {
            kind,
            id,
            language,
            ..
        } => without_docks(view_to_add_name(alloc, conn, *kind, id, language)),
        Command::SetName {
            kind,
            id,
            language,
            ..
        } => without_docks(view_to_change_name(alloc, conn, *kind, id, language)),
        Command::RemoveName { kind, id, language } => without_docks(view_to_change_name(
            alloc, conn, *kind, id, language,
        )),
        Command::ChangeSystem(_) => without_docks(find_system_view(conn)),
        Command::MoveStation { station, .. } => without_docks(find_station_view(conn, station)),
        Command::AddDocks { station, .. } => view_to_add_docks(alloc, conn, station),
    }
}
