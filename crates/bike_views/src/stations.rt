//! What the commands on stations and their docks name.

ghost use Rattle.std.specs.Prelude.{◌≡◌, ℕ};
ghost use Rattle.bike_commands.specs.declared.command.Command.TheVariants as command;
ghost use Rattle.bike_operator.specs.View.{empty_view, has_region, station_at, view_of};
ghost use Rattle.bike_schema.specs.Answers.{Answers};
ghost use Rattle.bike_views.specs.Open.{AnswersOpen};
ghost use Rattle.bike_views.specs.ViewAndDocks.{IsFoundFor};

use crate::empty::empty_view;
use crate::view_and_docks::{StationDocks, ViewAndDocks};
use bike_catalogue::Station;
use bike_fields::Ident;
use bike_fleet_reads::{are_stations_full, find_station, find_station_row, has_region};
use bike_operator::View;
use bike_schema::StatementFault;
use sqlite::{Alter, Connection};
use std::alloc::Global;

/// The view for a new station.
pub(crate) fn view_to_add_station<S: Alter>(
    conn: &mut Connection<S>,
    added: &Station,
) -> Result<View, StatementFault>
    ensures { Answers S.Store conn.old conn.new result
        (λ s m view. view ≡ view_of s (command.AddStation added.now)) }
{
    let station = find_station(conn, added.station_id())?;
    let is_full = are_stations_full(conn)?;
    Ok(View {
        station,
        is_full,
        ..empty_view()
    })
}

/// The station alone, for its flags and its position.
pub(crate) fn find_station_view<S: Alter>(
    conn: &mut Connection<S>,
    station: &Ident,
) -> Result<View, StatementFault>
    ensures { Answers S.Store conn.old conn.new result
        (λ s m view. view ≡ record empty_view { station = station_at s station.now }) }
{
    let station = find_station(conn, station)?;
    Ok(View {
        station,
        ..empty_view()
    })
}

/// The view for docks that a station gets, however many, with the docks that it has.
pub(crate) fn view_to_add_docks<S: Alter>(
    alloc: Global,
    conn: &mut Connection<S>,
    station: &Ident,
) -> Result<ViewAndDocks, StatementFault>
    ensures { Answers S.Store conn.old conn.new result
        (λ s m x. (count : ℕ) → IsFoundFor s m (command.AddDocks station.now count) x) }
{
    let row = find_station_row(alloc, conn, station)?;
    let docks = StationDocks::new(alloc, station, row.numbers, None)?;
    Ok(ViewAndDocks {
        view: View {
            station: row.station,
            ..empty_view()
        },
        docks: Some(docks),
    })
}

/// Whether the region is there, or none is named.
fn is_region_there<S: Alter>(
    conn: &mut Connection<S>,
    region: &Option<Ident>,
) -> Result<bool, StatementFault>
    ensures { AnswersOpen S.Store conn.old conn.new result (λ s m there. there ≡ has_region s region.now) }
{
    match region {
        None => Ok(true),
        Some(region) => has_region(conn, region),
    }
}

/// The view for another region of a station, or for none.
pub(crate) fn view_to_set_region<S: Alter>(
    conn: &mut Connection<S>,
    station: &Ident,
    region: &Option<Ident>,
) -> Result<View, StatementFault>
    ensures { Answers S.Store conn.old conn.new result
        (λ s m view. view ≡ view_of s (command.SetRegion station.now region.now)) }
{
    let station = find_station(conn, station)?;
    let has_region = is_region_there(conn, region)?;
    Ok(View {
        station,
        has_region,
        ..empty_view()
    })
}
