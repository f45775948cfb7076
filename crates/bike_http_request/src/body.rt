//! The command that a body gives, by the route of its path.

ghost use Rattle.std.specs.Prelude.{◌≡◌, ◌==◌, IfOk};
ghost use Rattle.std.specs.List.{slice_split};
ghost use Rattle.bike_requests.specs.Readers.{command_at};
ghost use Rattle.serde_json.specs.View.{view};
ghost use Rattle.bike_http_request.specs.Bodies.{start_of, end_of, mark_dock_of, mark_bike_of, load_of, unload_of};
ghost use Rattle.bike_http_request.specs.Bodies.{office_command, dock_command, crew_command, command_by};

use crate::members::{choice_in, ident_in, number_in, side_in, text_in};
use bike_commands::Command;
use bike_fields::{Caller, Ident, RiderNumber, TruckNumber};
use bike_http_head::Route;
use bike_requests::read_command;
use serde_json::Value;
use std::alloc::{AllocError, Global};

#[tactic(auto, unfolding(crate::specs::Bodies::start_of))]
fn read_start(
    alloc: Global,
    rider: RiderNumber,
    body: &Value,
) -> Result<Option<Command>, AllocError>
    ensures { IfOk result (λ o. o ≡ start_of rider (view body.now)) }
{
    let Some(station) = ident_in(alloc, body, "station")? else {
        return Ok(None);
    };
    let Some(dock) = number_in(body, "dock") else {
        return Ok(None);
    };
    Ok(Some(Command::Start {
        rider,
        station,
        dock,
    }))
}

#[tactic(auto, unfolding(crate::specs::Bodies::end_of))]
fn read_end(alloc: Global, station: &Ident, body: &Value) -> Result<Option<Command>, AllocError>
    ensures { IfOk result (λ o. o ≡ end_of station.now (view body.now)) }
{
    let Some(bike) = number_in(body, "bike") else {
        return Ok(None);
    };
    let Some(dock) = number_in(body, "dock") else {
        return Ok(None);
    };
    Ok(Some(Command::End {
        bike,
        station: station.try_clone(alloc)?,
        dock,
    }))
}

#[tactic(auto, unfolding(crate::specs::Bodies::mark_dock_of))]
fn read_mark_dock(
    alloc: Global,
    station: &Ident,
    body: &Value,
) -> Result<Option<Command>, AllocError>
    ensures { IfOk result (λ o. o ≡ mark_dock_of station.now (view body.now)) }
{
    let Some(dock) = number_in(body, "dock") else {
        return Ok(None);
    };
    let Some(broken) = choice_in(body, "state", "broken", "working") else {
        return Ok(None);
    };
    Ok(Some(Command::MarkDock {
        station: station.try_clone(alloc)?,
        dock,
        broken,
    }))
}

#[tactic(auto, unfolding(crate::specs::Bodies::mark_bike_of))]
fn read_mark_bike(body: &Value) -> Option<Command>
    ensures { result ≡ mark_bike_of (view body.now) }
{
    let bike = number_in(body, "bike")?;
    let disabled = choice_in(body, "state", "disabled", "fit")?;
    Some(Command::MarkBike { bike, disabled })
}

#[tactic(auto, unfolding(crate::specs::Bodies::load_of))]
fn read_load(truck: TruckNumber, body: &Value) -> Option<Command>
    ensures { result ≡ load_of truck (view body.now) }
{
    let order = number_in(body, "order")?;
    let bike = number_in(body, "bike")?;
    Some(Command::Load { truck, order, bike })
}

#[tactic(auto, unfolding(crate::specs::Bodies::unload_of))]
fn read_unload(truck: TruckNumber, body: &Value) -> Option<Command>
    ensures { result ≡ unload_of truck (view body.now) }
{
    let order = number_in(body, "order")?;
    let bike = number_in(body, "bike")?;
    let side = side_in(body, "side")?;
    let dock = number_in(body, "dock")?;
    Some(Command::Unload {
        truck,
        order,
        bike,
        side,
        dock,
    })
}

/// The command that the text spells.
fn read_spelled(alloc: Global, text: &str) -> Result<Option<Command>, AllocError>
    ensures { IfOk result (λ o. o ≡ command_at (slice_split (λ b. b == 9) text.now)) }
{
    read_command(alloc, text)
}

#[tactic(auto, unfolding(crate::specs::Bodies::office_command))]
fn read_office(alloc: Global, body: &Value) -> Result<Option<Command>, AllocError>
    ensures { IfOk result (λ o. o ≡ office_command (view body.now)) }
{
    let Some(text) = text_in(body, "command") else {
        return Ok(None);
    };
    read_spelled(alloc, text)
}

/// The command that the body gives to a station's route.
fn read_dock_command(
    alloc: Global,
    route: Route,
    station: &Ident,
    body: &Value,
) -> Result<Option<Command>, AllocError>
    ensures { IfOk result (λ o. o ≡ dock_command route station.now (view body.now)) }
{
    match route {
        Route::End => read_end(alloc, station, body),
        Route::MarkDock => read_mark_dock(alloc, station, body),
        _ => Ok(read_mark_bike(body)),
    }
}

/// The command that the body gives to a truck's route.
fn read_crew_command(route: Route, truck: TruckNumber, body: &Value) -> Option<Command>
    ensures { result ≡ crew_command route truck (view body.now) }
{
    match route {
        Route::Load => read_load(truck, body),
        Route::Unload => read_unload(truck, body),
        _ => read_mark_bike(body),
    }
}

/// The command that the body gives to a caller's route.
pub(crate) fn read_command_by(
    alloc: Global,
    route: Route,
    caller: &Caller,
    body: &Value,
) -> Result<Option<Command>, AllocError>
    ensures { IfOk result (λ o. o ≡ command_by route caller.now (view body.now)) }
{
    match caller {
        Caller::Rider(rider) => read_start(alloc, *rider, body),
        Caller::Dock(station) => read_dock_command(alloc, route, station, body),
        Caller::Crew(truck) => Ok(read_crew_command(route, *truck, body)),
        Caller::Office | Caller::Staff(_) | Caller::Import(_) => read_office(alloc, body),
    }
}
