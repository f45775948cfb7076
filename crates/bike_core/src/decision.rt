//! The decision on a command: refused, or what is answered and changed.

ghost use Rattle.std.specs.Prelude.{IfOk};
ghost use Rattle.bike_accepted.specs.Effects.{DecidesAt};
ghost use Rattle.bike_accepted.specs.Found.{FindsAt};
ghost use Rattle.bike_operator.specs.Bounds.{IsBounded};

use crate::decide_bikes::{decide_add_bike, decide_mark_bike, decide_retire_bike};
use crate::decide_catalogue::{
    decide_add_docks, decide_add_plan, decide_add_station, decide_add_type, decide_change_system,
    decide_mark_dock, decide_move_station, decide_set_plan, decide_set_station, decide_set_system,
};
use crate::decide_names::{decide_add_name, decide_remove_name, decide_set_name};
use crate::decide_orders::{
    decide_add_truck, decide_close_order, decide_load, decide_open_order, decide_unload,
};
use crate::decide_regions::{decide_add_region, decide_set_region};
use crate::decide_rentals::{decide_end, decide_recover, decide_refund, decide_start};
use crate::decide_riders::{decide_add_rider, decide_set_rider, decide_top_up};
use bike_accepted::Decision;
use bike_commands::Command;
use bike_fixed::Moment;
use bike_operator::View;

/// Decides on a command, without memory: by the first-refusal rule the first refusal that holds, or else the reply and
/// the changes that make its effect. The view is the operator's for the command, and `now` is by the now rule the
/// greater of the request's moment and the operator's.
pub fn decide<'a>(view: &'a View, now: Moment, command: &'a Command) -> Decision<'a>
    requires { IsBounded view.now now }
    ensures decides { DecidesAt now view.now command.now result }
    ensures found { IfOk result (FindsAt now view.now command.now) }
{
    match command {
        Command::SetSystem(system) => decide_set_system(view, system),
        Command::AddPlan(plan) => decide_add_plan(view, plan),
        Command::AddType(vehicle_type) => decide_add_type(view, vehicle_type),
        Command::SetPlan { type_id, plan } => decide_set_plan(view, type_id, plan),
        Command::AddStation(station) => decide_add_station(view, now, station),
        Command::SetStation {
            station,
            installed,
            renting,
            returning,
        } => decide_set_station(view, now, station, *installed, *renting, *returning),
        Command::MarkDock {
            station,
            dock,
            broken,
        } => decide_mark_dock(view, station, *dock, *broken),
        Command::AddBike { bike, type_id } => decide_add_bike(view, *bike, type_id),
        Command::MarkBike { bike, disabled } => decide_mark_bike(view, *bike, *disabled),
        Command::RetireBike { bike } => decide_retire_bike(view, *bike),
        Command::AddTruck { truck, capacity } => decide_add_truck(view, *truck, *capacity),
        Command::AddRider { rider } => decide_add_rider(view, *rider),
        Command::SetRider { rider, blocked } => decide_set_rider(view, *rider, *blocked),
        Command::TopUp { rider, amount } => decide_top_up(view, now, *rider, *amount),
        Command::Start {
            rider,
            station,
            dock,
        } => decide_start(view, now, *rider, station, *dock),
        Command::End {
            bike,
            station,
            dock,
        } => decide_end(view, now, *bike, station, *dock),
        Command::Recover { rental } => decide_recover(view, now, *rental),
        Command::Refund { rental, amount } => decide_refund(view, now, *rental, *amount),
        Command::OpenOrder {
            truck,
            from_end,
            to_end,
            type_id,
            count,
        } => decide_open_order(view, *truck, from_end, to_end, type_id, *count),
        Command::Load { truck, order, bike } => decide_load(view, *truck, *order, *bike),
        Command::Unload {
            truck,
            order,
            bike,
            side,
            dock,
        } => decide_unload(view, *truck, *order, *bike, *side, *dock),
        Command::CloseOrder { order } => decide_close_order(view, *order),
        Command::AddRegion(region) => decide_add_region(view, region),
        Command::SetRegion { station, region } => {
            decide_set_region(view, station, region.as_ref())
        }
        Command::AddName {
            kind,
            id,
            language,
            name,
        } => decide_add_name(view, *kind, id, language, name),
        Command::SetName {
            kind,
            id,
            language,
            name,
        } => decide_set_name(view, *kind, id, language, name),
        Command::RemoveName { kind, id, language } => decide_remove_name(view, *kind, id, language),
        Command::ChangeSystem(settings) => decide_change_system(view, settings),
        Command::MoveStation { station, position } => decide_move_station(view, station, position),
        Command::AddDocks { station, count } => decide_add_docks(view, station, count),
    }
}
