//! Decisions on the catalogue: the system, plans, vehicle types and stations.

ghost use Rattle.std.specs.Prelude.{IfOk};
ghost use Rattle.bike_commands.specs.declared.command.Command.TheVariants as command;
ghost use Rattle.bike_accepted.specs.Effects.{DecidesAt, DecidesOn};
ghost use Rattle.bike_accepted.specs.Found.{FindsAt, FindsOn};

use bike_accepted::{Accepted, Change, Decision, DockAt, Movement, held_in};
use bike_catalogue::{Plan, Settings, Station, System, VehicleType};
use bike_commands::Refusal;
use bike_fields::{DockCount, DockNumber, Ident, MOST_DOCKS, Position};
use bike_fixed::Moment;
use bike_operator::View;

/// Decides on setting the system: it is set once.
pub(crate) fn decide_set_system<'a>(view: &View, system: &'a System) -> Decision<'a>
    ensures decides { DecidesOn view.now (command.SetSystem system.now) result }
    ensures found { IfOk result (FindsOn view.now (command.SetSystem system.now)) }
{
    if view.has_system {
        return Err(Refusal::AlreadyThere);
    }
    Ok(Accepted {
        change: Some(Change::SetSystem(system)),
        ..Accepted::done()
    })
}

/// Decides on other settings of the system, which is set.
pub(crate) fn decide_change_system<'a>(view: &View, settings: &'a Settings) -> Decision<'a>
    ensures decides { DecidesOn view.now (command.ChangeSystem settings.now) result }
    ensures found { IfOk result (FindsOn view.now (command.ChangeSystem settings.now)) }
{
    if !view.has_system {
        return Err(Refusal::SystemMissing);
    }
    Ok(Accepted {
        change: Some(Change::ChangeSystem(settings)),
        ..Accepted::done()
    })
}

/// Decides on a new pricing plan.
pub(crate) fn decide_add_plan<'a>(view: &View, plan: &'a Plan) -> Decision<'a>
    ensures decides { DecidesOn view.now (command.AddPlan plan.now) result }
    ensures found { IfOk result (FindsOn view.now (command.AddPlan plan.now)) }
{
    if view.has_plan {
        return Err(Refusal::AlreadyThere);
    }
    if view.is_full {
        return Err(Refusal::LimitReached);
    }
    Ok(Accepted {
        change: Some(Change::AddPlan(plan)),
        ..Accepted::done()
    })
}

/// Decides on a new vehicle type with its default plan.
pub(crate) fn decide_add_type<'a>(view: &View, vehicle_type: &'a VehicleType) -> Decision<'a>
    ensures decides { DecidesOn view.now (command.AddType vehicle_type.now) result }
    ensures found { IfOk result (FindsOn view.now (command.AddType vehicle_type.now)) }
{
    if view.has_type {
        return Err(Refusal::AlreadyThere);
    }
    if !view.has_plan {
        return Err(Refusal::UnknownPlan);
    }
    if view.is_full {
        return Err(Refusal::LimitReached);
    }
    Ok(Accepted {
        change: Some(Change::AddType(vehicle_type)),
        ..Accepted::done()
    })
}

/// Decides on another default plan of a vehicle type.
pub(crate) fn decide_set_plan<'a>(view: &View, type_id: &'a Ident, plan: &'a Ident) -> Decision<'a>
    ensures decides { DecidesOn view.now (command.SetPlan type_id.now plan.now) result }
    ensures found { IfOk result (FindsOn view.now (command.SetPlan type_id.now plan.now)) }
{
    if !view.has_type {
        return Err(Refusal::UnknownType);
    }
    if !view.has_plan {
        return Err(Refusal::UnknownPlan);
    }
    Ok(Accepted {
        change: Some(Change::SetPlan { type_id, plan }),
        ..Accepted::done()
    })
}

/// Decides on a new station.
pub(crate) fn decide_add_station<'a>(view: &View, now: Moment, station: &'a Station) -> Decision<'a>
    ensures decides { DecidesAt now view.now (command.AddStation station.now) result }
    ensures found { IfOk result (FindsAt now view.now (command.AddStation station.now)) }
{
    if view.station.is_some() {
        return Err(Refusal::AlreadyThere);
    }
    if view.is_full {
        return Err(Refusal::LimitReached);
    }
    let change = Change::AddStation {
        station,
        reported: now,
    };
    Ok(Accepted {
        change: Some(change),
        ..Accepted::done()
    })
}

/// Decides on another position of a station.
pub(crate) fn decide_move_station<'a>(
    view: &View,
    station: &'a Ident,
    position: &'a Position,
) -> Decision<'a>
    ensures decides { DecidesOn view.now (command.MoveStation station.now position.now) result }
    ensures found { IfOk result (FindsOn view.now (command.MoveStation station.now position.now)) }
{
    if view.station.is_none() {
        return Err(Refusal::UnknownStation);
    }
    Ok(Accepted {
        change: Some(Change::MoveStation { station, position }),
        ..Accepted::done()
    })
}

/// Decides on docks that a station gets: it has at most `MOST_DOCKS` then.
pub(crate) fn decide_add_docks<'a>(
    view: &'a View,
    station: &'a Ident,
    count: &'a DockCount,
) -> Decision<'a>
    ensures decides { DecidesOn view.now (command.AddDocks station.now count.now) result }
    ensures found { IfOk result (FindsOn view.now (command.AddDocks station.now count.now)) }
{
    let Some(row) = &view.station else {
        return Err(Refusal::UnknownStation);
    };
    let was = &row.docks;
    if was.get() + count.get() > MOST_DOCKS {
        return Err(Refusal::LimitReached);
    }
    Ok(Accepted::moved(Movement::AddDocks {
        station,
        was,
        count,
    }))
}

/// Decides on the flags of a station, which reports.
pub(crate) fn decide_set_station<'a>(
    view: &View,
    now: Moment,
    station: &'a Ident,
    is_installed: bool,
    is_renting: bool,
    is_returning: bool,
) -> Decision<'a>
    ensures decides { DecidesAt now view.now
        (command.SetStation station.now is_installed is_renting is_returning) result }
    ensures found { IfOk result
        (FindsAt now view.now (command.SetStation station.now is_installed is_renting is_returning)) }
{
    if view.station.is_none() {
        return Err(Refusal::UnknownStation);
    }
    let change = Change::SetStation {
        station,
        is_installed,
        is_renting,
        is_returning,
        reported: now,
    };
    Ok(Accepted {
        change: Some(change),
        ..Accepted::done()
    })
}

/// Decides on a dock that is broken, or works again. By the no-change rule it may be so already.
pub(crate) fn decide_mark_dock<'a>(
    view: &'a View,
    station: &'a Ident,
    dock: DockNumber,
    is_broken: bool,
) -> Decision<'a>
    ensures decides { DecidesOn view.now (command.MarkDock station.now dock is_broken) result }
    ensures found { IfOk result (FindsOn view.now (command.MarkDock station.now dock is_broken)) }
{
    let Some(row) = &view.station else {
        return Err(Refusal::UnknownStation);
    };
    if row.docks.get() < dock.get() {
        return Err(Refusal::UnknownDock);
    }
    let at = DockAt {
        station,
        dock: dock.get(),
        is_broken: view.is_dock_broken,
    };
    let held = held_in(&view.docked);
    Ok(Accepted::moved(Movement::Marked {
        at,
        held,
        is_broken,
    }))
}
