//! What the commands on rentals name.

ghost use Rattle.std.specs.Prelude.{◌≡◌, ℕ};
ghost use Rattle.std.specs.FinMap as map;
ghost use Rattle.bike_ledger.specs.Ledger.{refunded_of};
ghost use Rattle.bike_commands.specs.declared.command.Command.TheVariants as command;
ghost use Rattle.bike_operator.specs.Operator.{last_number};
ghost use Rattle.bike_operator.specs.View.{planned_rental, rental_at, rental_of, view_of};
ghost use Rattle.bike_schema.specs.Answers.{Answers};
ghost use Rattle.bike_views.specs.Known.{IsKnown};
ghost use Rattle.bike_views.specs.Open.{AnswersOpen};
ghost use Rattle.bike_views.specs.ViewAndDocks.{IsFoundFor};
ghost use Rattle.bike_views.specs.Parts.{rental_bike, rental_bike_at};

use crate::docks::find_dock_view;
use crate::empty::empty_view;
use crate::figures::{KnownFigures, is_ledger_full};
use crate::view_and_docks::ViewAndDocks;
use bike_fields::{BicycleNumber, DockNumber, Ident, RentalNumber, RiderNumber};
use bike_fixed::Cents;
use bike_fleet_reads::find_bike;
use bike_office_reads::{find_plan, find_rental, find_rider, find_rider_balance, is_riding};
use bike_operator::{Bike, Place, Rental, RentalView, View};
use bike_schema::StatementFault;
use sqlite::{Alter, Connection};
use std::alloc::Global;

/// A bicycle, and a rental of it.
#[derive(Drop)]
pub(crate) struct RentalBike {
    pub(crate) bike: Option<Bike>,
    pub(crate) rental: Option<RentalView>,
}

/// The rental with its plan and its rider's balance.
fn find_planned_rental<S: Alter>(
    alloc: Global,
    conn: &mut Connection<S>,
    number: RentalNumber,
    rental: Rental,
    refunded: Cents,
) -> Result<Option<RentalView>, StatementFault>
    ensures { Answers S.Store conn.old conn.new result (λ s m found. refunded ≡ refunded_of number s.entries.items
        → found ≡ planned_rental s number rental (map.get s.plans rental.plan)) }
{
    let balance = find_rider_balance(conn, rental.rider)?;
    match find_plan(alloc, conn, &rental.plan)? {
        None => Ok(None),
        Some(plan) => Ok(Some(RentalView {
            number,
            rental,
            plan,
            refunded,
            balance,
        })),
    }
}

/// The rental with its plan.
fn find_rental_view<S: Alter>(
    alloc: Global,
    conn: &mut Connection<S>,
    rental: RentalNumber,
) -> Result<Option<RentalView>, StatementFault>
    ensures { Answers S.Store conn.old conn.new result (λ s m found. found ≡ rental_at s rental) }
{
    match find_rental(alloc, conn, rental)? {
        None => Ok(None),
        Some((found, refunded)) => find_planned_rental(alloc, conn, rental, found, refunded),
    }
}

/// The rental in which the bicycle is.
fn find_rental_of<S: Alter>(
    alloc: Global,
    conn: &mut Connection<S>,
    bike: &Option<Bike>,
) -> Result<Option<RentalView>, StatementFault>
    ensures { AnswersOpen S.Store conn.old conn.new result (λ s m found. found ≡ rental_of s bike.now) }
{
    match bike {
        None => Ok(None),
        Some(bike) => match &bike.place {
            Place::Rental { rental } => find_rental_view(alloc, conn, *rental),
            Place::Dock { .. } | Place::Truck { .. } | Place::Depot => Ok(None),
        },
    }
}

/// The view for the start of a rental.
pub(crate) fn view_to_start<S: Alter>(
    alloc: Global,
    conn: &mut Connection<S>,
    rider: RiderNumber,
    station: &Ident,
    dock: DockNumber,
    known: &KnownFigures,
) -> Result<ViewAndDocks, StatementFault>
    ensures { Answers S.Store conn.old conn.new result
        (λ s m x. IsKnown s known.now → IsFoundFor s m (command.Start rider station.now dock) x) }
{
    let rider_view = find_rider(alloc, conn, rider)?;
    let is_riding = is_riding(conn, rider, known.newest_tells)?;
    let is_ledger_full = is_ledger_full(conn, known.figures.entries)?;
    let mut found = find_dock_view(alloc, conn, station, dock.get())?;
    found.view.rider = rider_view;
    found.view.is_riding = is_riding;
    found.view.is_ledger_full = is_ledger_full;
    found.view.rentals = known.figures.rentals;
    Ok(found)
}

/// The view for the end of a rental, where there are so many entries.
pub(crate) fn view_to_end<S: Alter>(
    alloc: Global,
    conn: &mut Connection<S>,
    bike: BicycleNumber,
    station: &Ident,
    dock: DockNumber,
    entries: u32,
) -> Result<ViewAndDocks, StatementFault>
    ensures { Answers S.Store conn.old conn.new result
        (λ s m x. entries ≡ last_number s.entries → IsFoundFor s m (command.End bike station.now dock) x) }
{
    let bike = find_bike(alloc, conn, bike)?;
    let rental = find_rental_of(alloc, conn, &bike)?;
    let mut found = find_dock_view(alloc, conn, station, dock.get())?;
    found.view.bike = bike;
    found.view.rental = rental;
    found.view.entries = entries;
    Ok(found)
}

/// The bicycle of the rental, and the rental with its plan.
fn find_rental_bike<S: Alter>(
    alloc: Global,
    conn: &mut Connection<S>,
    number: RentalNumber,
    rental: Rental,
    refunded: Cents,
) -> Result<RentalBike, StatementFault>
    ensures { Answers S.Store conn.old conn.new result (λ s m ridden. refunded ≡ refunded_of number s.entries.items
        → ridden ≡ rental_bike s number rental) }
{
    let bike = find_bike(alloc, conn, rental.bike)?;
    let rental = find_planned_rental(alloc, conn, number, rental, refunded)?;
    Ok(RentalBike { bike, rental })
}

/// The bicycle of a rental, and the rental with its plan, where it is there.
fn find_rental_bike_at<S: Alter>(
    alloc: Global,
    conn: &mut Connection<S>,
    rental: RentalNumber,
) -> Result<RentalBike, StatementFault>
    ensures { Answers S.Store conn.old conn.new result (λ s m ridden. ridden ≡ rental_bike_at s rental) }
{
    match find_rental(alloc, conn, rental)? {
        None => Ok(RentalBike {
            bike: None,
            rental: None,
        }),
        Some((found, refunded)) => find_rental_bike(alloc, conn, rental, found, refunded),
    }
}

/// The view for a rental that is closed at the depot, where there are so many entries.
pub(crate) fn view_to_recover<S: Alter>(
    alloc: Global,
    conn: &mut Connection<S>,
    rental: RentalNumber,
    entries: u32,
) -> Result<View, StatementFault>
    ensures { Answers S.Store conn.old conn.new result
        (λ s m view. entries ≡ last_number s.entries → view ≡ view_of s (command.Recover rental)) }
{
    let recovered = find_rental_bike_at(alloc, conn, rental)?;
    Ok(View {
        rental: recovered.rental,
        bike: recovered.bike,
        entries,
        ..empty_view()
    })
}

/// The view for a refund, whatever its amount, where there are so many entries.
pub(crate) fn view_to_refund<S: Alter>(
    alloc: Global,
    conn: &mut Connection<S>,
    rental: RentalNumber,
    entries: u32,
) -> Result<View, StatementFault>
    ensures { Answers S.Store conn.old conn.new result (λ s m view. entries ≡ last_number s.entries → (amount : ℕ)
        → view ≡ view_of s (command.Refund rental amount)) }
{
    let rental = find_rental_view(alloc, conn, rental)?;
    let is_ledger_full = is_ledger_full(conn, entries)?;
    Ok(View {
        rental,
        is_ledger_full,
        entries,
        ..empty_view()
    })
}
