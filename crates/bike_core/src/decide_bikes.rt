//! Decisions on bicycles, apart from rentals and orders.

ghost use Rattle.std.specs.Prelude.{IfOk};
ghost use Rattle.bike_commands.specs.declared.command.Command.TheVariants as command;
ghost use Rattle.bike_accepted.specs.Effects.{DecidesOn};
ghost use Rattle.bike_accepted.specs.Found.{FindsOn};

use bike_accepted::{
    Accepted, BikeStatus, Change, Decision, Movement, is_depot, is_retired, put_from, standing_of,
};
use bike_commands::Refusal;
use bike_fields::{BicycleNumber, Ident};
use bike_operator::{BikeState, View};

/// Decides on a new bicycle.
pub(crate) fn decide_add_bike<'a>(
    view: &View,
    bike: BicycleNumber,
    type_id: &'a Ident,
) -> Decision<'a>
    ensures decides { DecidesOn view.now (command.AddBike bike type_id.now) result }
    ensures found { IfOk result (FindsOn view.now (command.AddBike bike type_id.now)) }
{
    if view.bike.is_some() {
        return Err(Refusal::AlreadyThere);
    }
    if !view.has_type {
        return Err(Refusal::UnknownType);
    }
    if view.is_full {
        return Err(Refusal::LimitReached);
    }
    let change = Change::AddBike {
        bike: bike.get(),
        type_id,
    };
    Ok(Accepted {
        change: Some(change),
        ..Accepted::done()
    })
}

/// Decides on a bicycle that is disabled, or fit again.
pub(crate) fn decide_mark_bike<'a>(
    view: &'a View,
    bike: BicycleNumber,
    is_disabled: bool,
) -> Decision<'a>
    ensures decides { DecidesOn view.now (command.MarkBike bike is_disabled) result }
    ensures found { IfOk result (FindsOn view.now (command.MarkBike bike is_disabled)) }
{
    let Some(row) = &view.bike else {
        return Err(Refusal::UnknownBike);
    };
    if is_retired(row.state) {
        return Err(Refusal::BikeRetired);
    }
    let state = if is_disabled {
        BikeState::Disabled
    } else {
        BikeState::Fit
    };
    let was = standing_of(row);
    let becomes = BikeStatus {
        state,
        place: was.place,
    };
    let moved = put_from(bike.get(), &row.type_id, was, becomes, view.is_dock_broken);
    Ok(Accepted::moved(moved))
}

/// Decides on retiring a bicycle, which has to be in the depot.
pub(crate) fn decide_retire_bike<'a>(view: &'a View, bike: BicycleNumber) -> Decision<'a>
    ensures decides { DecidesOn view.now (command.RetireBike bike) result }
    ensures found { IfOk result (FindsOn view.now (command.RetireBike bike)) }
{
    let Some(row) = &view.bike else {
        return Err(Refusal::UnknownBike);
    };
    if is_retired(row.state) {
        return Err(Refusal::BikeRetired);
    }
    if !is_depot(&row.place) {
        return Err(Refusal::NotInDepot);
    }
    let was = standing_of(row);
    let becomes = BikeStatus {
        state: BikeState::Retired,
        place: was.place,
    };
    Ok(Accepted::moved(Movement::Away {
        bike: bike.get(),
        type_id: &row.type_id,
        was,
        becomes,
    }))
}
