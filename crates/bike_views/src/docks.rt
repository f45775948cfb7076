//! What is read of a dock.

ghost use Rattle.std.specs.Prelude.{◌≡◌, Bool, Some};
ghost use Rattle.std.specs.FinMap as map;
ghost use Rattle.bike_commands.specs.declared.command.Command.TheVariants as command;
ghost use Rattle.bike_operator.specs.Counts.{docked_at, is_broken};
ghost use Rattle.bike_operator.specs.View.{dock_view, docked_view, typed_bike};
ghost use Rattle.bike_schema.specs.Answers.{Answers};
ghost use Rattle.bike_fleet_reads.specs.Fleet.{AreNumbersAt, numbered_pair};
ghost use Rattle.bike_views.specs.Open.{AnswersOpen};
ghost use Rattle.bike_views.specs.ViewAndDocks.{IsFoundFor, station_docks, told_of};

use crate::empty::empty_view;
use crate::view_and_docks::{DockListing, StationDocks, ViewAndDocks};
use bike_fields::{DockNumber, Ident};
use bike_fleet_reads::{
    NumberedBike, StationNumbers, find_default_plan, find_docked, find_mark, find_station_row,
    has_broken,
};
use bike_operator::{DockedBike, View};
use bike_schema::StatementFault;
use sqlite::{Alter, Connection};
use std::alloc::Global;

/// Whether a dock is broken, where these are its station's numbers. Where none of them is broken, the
/// dock's row isn't read. A dock with no row works.
pub(crate) fn is_marked<S: Alter>(
    conn: &mut Connection<S>,
    station: &Ident,
    dock: u32,
    numbers: &Option<StationNumbers>,
) -> Result<bool, StatementFault>
    ensures { AnswersOpen S.Store conn.old conn.new result
        (λ s m broken. AreNumbersAt s station.now numbers.now → broken ≡ is_broken s station.now dock) }
{
    if !has_broken(numbers) {
        return Ok(false);
    }
    let mark = find_mark(conn, station, dock)?;
    Ok(mark.unwrap_or(false))
}

/// The bicycle with the default plan of its type.
fn find_typed_bike<S: Alter>(
    alloc: Global,
    conn: &mut Connection<S>,
    docked: NumberedBike,
) -> Result<Option<DockedBike>, StatementFault>
    ensures { Answers S.Store conn.old conn.new result
        (λ s m found. found ≡ typed_bike (numbered_pair docked) (map.get s.types docked.bike.type_id)) }
{
    match find_default_plan(alloc, conn, &docked.bike.type_id)? {
        None => Ok(None),
        Some(plan) => Ok(Some(DockedBike {
            bike: docked.number,
            type_id: docked.bike.type_id,
            state: docked.bike.state,
            plan,
        })),
    }
}

/// The bicycle in a dock, with the default plan of its type.
fn find_docked_bike<S: Alter>(
    alloc: Global,
    conn: &mut Connection<S>,
    station: &Ident,
    dock: u32,
) -> Result<Option<DockedBike>, StatementFault>
    ensures { Answers S.Store conn.old conn.new result
        (λ s m found. found ≡ docked_view s (docked_at s station.now dock)) }
{
    match find_docked(alloc, conn, station, dock)? {
        None => Ok(None),
        Some(docked) => find_typed_bike(alloc, conn, docked),
    }
}

/// The station, the mark of its dock and the bicycle in it, with the docks of the station.
pub(crate) fn find_dock_view<S: Alter>(
    alloc: Global,
    conn: &mut Connection<S>,
    station: &Ident,
    dock: u32,
) -> Result<ViewAndDocks, StatementFault>
    ensures { Answers S.Store conn.old conn.new result
        (λ s m x. (x.view ≡ dock_view s station.now dock) × (told_of x.docks ≡ Some (station_docks s station.now))) }
{
    let row = find_station_row(alloc, conn, station)?;
    let is_dock_broken = is_marked(conn, station, dock, &row.numbers)?;
    let docked = find_docked_bike(alloc, conn, station, dock)?;
    let docks = StationDocks::new(alloc, station, row.numbers, None)?;
    Ok(ViewAndDocks {
        view: View {
            station: row.station,
            is_dock_broken,
            docked,
            ..empty_view()
        },
        docks: Some(docks),
    })
}

/// The view for a dock that is marked, whatever the mark. The dock's row is read in any case: a mark is written over it
/// where it is there, and else added.
pub(crate) fn view_to_mark_dock<S: Alter>(
    alloc: Global,
    conn: &mut Connection<S>,
    station: &Ident,
    dock: DockNumber,
) -> Result<ViewAndDocks, StatementFault>
    ensures { Answers S.Store conn.old conn.new result
        (λ s m x. (broken : Bool) → IsFoundFor s m (command.MarkDock station.now dock broken) x) }
{
    let dock = dock.get();
    let row = find_station_row(alloc, conn, station)?;
    let mark = find_mark(conn, station, dock)?;
    let docked = find_docked_bike(alloc, conn, station, dock)?;
    let listing = DockListing {
        dock,
        is_listed: mark.is_some(),
    };
    let docks = StationDocks::new(alloc, station, row.numbers, Some(listing))?;
    Ok(ViewAndDocks {
        view: View {
            station: row.station,
            is_dock_broken: mark.unwrap_or(false),
            docked,
            ..empty_view()
        },
        docks: Some(docks),
    })
}
