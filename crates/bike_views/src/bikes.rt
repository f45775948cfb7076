//! What the commands on bicycles name.

ghost use Rattle.std.specs.Prelude.{◌≡◌, false, None, Some};
ghost use Rattle.std.specs.FinMap as map;
ghost use Rattle.bike_commands.specs.declared.command.Command.TheVariants as command;
ghost use Rattle.bike_operator.specs.Counts.{is_broken};
ghost use Rattle.bike_operator.specs.View.{bike_view, is_in_broken_dock, view_of};
ghost use Rattle.bike_schema.specs.Answers.{Answers};
ghost use Rattle.bike_views.specs.Open.{AnswersOpen};
ghost use Rattle.bike_views.specs.ViewAndDocks.{bike_docks, station_docks, told_of};

use crate::docks::is_marked;
use crate::empty::empty_view;
use crate::view_and_docks::{StationDocks, ViewAndDocks};
use bike_fields::{BicycleNumber, Ident};
use bike_fleet_reads::{are_bikes_full, find_bike, find_dock_numbers, has_type};
use bike_operator::{Bike, Place, View};
use bike_schema::StatementFault;
use sqlite::{Alter, Connection};
use std::alloc::Global;

/// What is read of the dock in which a bicycle stands.
#[derive(Drop)]
struct BikeDock {
    is_broken: bool,
    docks: Option<StationDocks>,
}

/// The bicycle stands in no dock.
fn no_dock() -> BikeDock
    ensures { result ≡ record { is_broken = false; docks = None } }
{
    BikeDock {
        is_broken: false,
        docks: None,
    }
}

/// Whether a dock is broken, with the docks of its station.
fn find_dock<S: Alter>(
    alloc: Global,
    conn: &mut Connection<S>,
    station: &Ident,
    dock: u32,
) -> Result<BikeDock, StatementFault>
    ensures { Answers S.Store conn.old conn.new result (λ s m x.
        (x.is_broken ≡ is_broken s station.now dock) × (told_of x.docks ≡ Some (station_docks s station.now))) }
{
    let numbers = find_dock_numbers(alloc, conn, station)?;
    let is_broken = is_marked(conn, station, dock, &numbers)?;
    let docks = StationDocks::new(alloc, station, numbers, None)?;
    Ok(BikeDock {
        is_broken,
        docks: Some(docks),
    })
}

/// Whether the dock is broken in which a bicycle stands, with the docks of its station.
fn find_dock_of<S: Alter>(
    alloc: Global,
    conn: &mut Connection<S>,
    bike: &Option<Bike>,
) -> Result<BikeDock, StatementFault>
    ensures { AnswersOpen S.Store conn.old conn.new result (λ s m x.
        (x.is_broken ≡ is_in_broken_dock s bike.now) × (told_of x.docks ≡ bike_docks s bike.now)) }
{
    match bike {
        None => Ok(no_dock()),
        Some(bike) => match &bike.place {
            Place::Dock { station, dock } => find_dock(alloc, conn, station, dock.get()),
            Place::Rental { .. } | Place::Truck { .. } | Place::Depot => Ok(no_dock()),
        },
    }
}

/// The bicycle and the mark of the dock in which it stands, with the docks of that dock's station.
pub(crate) fn find_bike_view<S: Alter>(
    alloc: Global,
    conn: &mut Connection<S>,
    bike: BicycleNumber,
) -> Result<ViewAndDocks, StatementFault>
    ensures { Answers S.Store conn.old conn.new result
        (λ s m x. (x.view ≡ bike_view s bike) × (told_of x.docks ≡ bike_docks s (map.get s.bikes bike))) }
{
    let found = find_bike(alloc, conn, bike)?;
    let dock = find_dock_of(alloc, conn, &found)?;
    Ok(ViewAndDocks {
        view: View {
            bike: found,
            is_dock_broken: dock.is_broken,
            ..empty_view()
        },
        docks: dock.docks,
    })
}

/// The view for a new bicycle.
pub(crate) fn view_to_add_bike<S: Alter>(
    alloc: Global,
    conn: &mut Connection<S>,
    bike: BicycleNumber,
    type_id: &Ident,
) -> Result<View, StatementFault>
    ensures { Answers S.Store conn.old conn.new result
        (λ s m view. view ≡ view_of s (command.AddBike bike type_id.now)) }
{
    let has_type = has_type(conn, type_id)?;
    let is_full = are_bikes_full(conn)?;
    let bike = find_bike(alloc, conn, bike)?;
    Ok(View {
        bike,
        has_type,
        is_full,
        ..empty_view()
    })
}

/// The view for a bicycle that is retired.
pub(crate) fn view_to_retire_bike<S: Alter>(
    alloc: Global,
    conn: &mut Connection<S>,
    bike: BicycleNumber,
) -> Result<View, StatementFault>
    ensures { Answers S.Store conn.old conn.new result (λ s m view. view ≡ view_of s (command.RetireBike bike)) }
{
    let bike = find_bike(alloc, conn, bike)?;
    Ok(View {
        bike,
        ..empty_view()
    })
}
