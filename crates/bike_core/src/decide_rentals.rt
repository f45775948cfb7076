//! Decisions on rentals.

ghost use Rattle.std.specs.Prelude.{◌≡◌, ◌+ℤ◌, ℕ, List, pos, Some, IfOk, IfSome, IsSome, true, false};
ghost use Rattle.bike_commands.specs.declared.command.Command.TheVariants as command;
ghost use Rattle.bike_operator.specs.Steps.{first, tests, plan_for};
ghost use Rattle.bike_operator.specs.Changes.{refusal_in};
ghost use Rattle.bike_operator.specs.Counts.{is_open};
ghost use Rattle.bike_operator.specs.Bounds.{IsRefundable, IsBounded};
ghost use Rattle.bike_accepted.specs.Effects.{DecidesAt};
ghost use Rattle.bike_accepted.specs.Found.{FindsAt};
ghost use Rattle.bike_core.specs.Recovered.{IsRecovered};

use bike_accepted::{
    Accepted, BikeStatus, Change, Decision, DockAt, Movement, balance_reply, booked, closing,
    ended_reply, fare_booked, is_fit, is_too_much, next_entry, next_number, standing_of,
    sum_within,
};
use bike_commands::{Refusal, Reply};
use bike_fields::{BicycleNumber, DockNumber, Ident, Payment, RentalNumber, RiderNumber};
use bike_fixed::{Cents, Moment};
use bike_ledger::Entry;
use bike_operator::{Bike, BikeState, DockedBike, NewPlace, RentalView, RiderView, View};

/// A rental that starts: its rider, and the bicycle that it takes from its dock.
#[derive(Clone, Copy)]
struct Starting<'a> {
    rider: &'a RiderView,
    docked: &'a DockedBike,
}

/// The rental that starts with the bicycle in a dock, or the first refusal of a start.
fn check_start(view: &View, dock: DockNumber) -> Result<Starting<'_>, Refusal>
    ensures tests { (rider : ℕ) (station : List ℕ)
        → refusal_in result ≡ first (tests view.now (command.Start rider station dock)) }
    ensures rider { IfOk result (λ x. view.now.rider ≡ Some x.rider.now) }
    ensures docked { IfOk result (λ x. view.now.docked ≡ Some x.docked.now) }
    ensures room { IfOk result (λ x. view.now.is_ledger_full ≡ false) }
{
    let Some(rider) = &view.rider else {
        return Err(Refusal::UnknownRider);
    };
    if rider.is_blocked {
        return Err(Refusal::RiderBlocked);
    }
    if rider.balance.hundredths() < 0 {
        return Err(Refusal::BalanceNegative);
    }
    if view.is_riding {
        return Err(Refusal::RiderIsRiding);
    }
    let Some(station) = &view.station else {
        return Err(Refusal::UnknownStation);
    };
    if station.docks.get() < dock.get() {
        return Err(Refusal::UnknownDock);
    }
    if !(station.is_installed && station.is_renting) {
        return Err(Refusal::NotRenting);
    }
    if view.is_dock_broken {
        return Err(Refusal::DockBroken);
    }
    let Some(docked) = &view.docked else {
        return Err(Refusal::DockEmpty);
    };
    if !is_fit(docked.state) {
        return Err(Refusal::BikeDisabled);
    }
    if view.is_ledger_full {
        return Err(Refusal::LimitReached);
    }
    Ok(Starting { rider, docked })
}

/// The plan that a rental keeps, by the rental-plan rule: its rider's own or, where the rider has none, that of the
/// bicycle's type.
fn plan_for<'a>(own: &'a Option<Ident>, default: &'a Ident) -> &'a Ident
    ensures { result.now ≡ plan_for own.now default.now }
{
    match own {
        None => default,
        Some(plan) => plan,
    }
}

/// Decides on the start of a rental of the bicycle in a dock.
pub(crate) fn decide_start<'a>(
    view: &'a View,
    now: Moment,
    rider: RiderNumber,
    station: &'a Ident,
    dock: DockNumber,
) -> Decision<'a>
    requires { IsBounded view.now now }
    ensures decides { DecidesAt now view.now (command.Start rider station.now dock) result }
    ensures found { IfOk result (FindsAt now view.now (command.Start rider station.now dock)) }
{
    let starting = match check_start(view, dock) {
        Ok(starting) => starting,
        Err(refusal) => return Err(refusal),
    };
    let docked = starting.docked;
    let rental = next_number(view.rentals);
    let bike = docked.bike;
    let dock = dock.get();
    let at = DockAt {
        station,
        dock,
        is_broken: false,
    };
    let was = BikeStatus {
        state: docked.state,
        place: NewPlace::Dock { station, dock },
    };
    let becomes = BikeStatus {
        state: docked.state,
        place: NewPlace::Rental {
            rental: rental.get(),
        },
    };
    let moved = Movement::AtDock {
        at,
        bike: bike.get(),
        type_id: &docked.type_id,
        was,
        becomes,
    };
    let opened = Change::AddRental {
        rental: rental.get(),
        rider: rider.get(),
        bike: bike.get(),
        plan: plan_for(&starting.rider.plan, &docked.plan),
        from_station: station,
        start: now,
    };
    Ok(Accepted {
        reply: Reply::Started { rental, bike },
        moved: Some(moved),
        change: Some(opened),
        entry: None,
    })
}

/// A rental that ends, and its bicycle.
#[derive(Clone, Copy)]
struct Ending<'a> {
    bike: &'a Bike,
    rental: &'a RentalView,
}

/// The rental that ends with its bicycle in a dock, or the first refusal of its end.
fn check_end(view: &View, dock: DockNumber) -> Result<Ending<'_>, Refusal>
    ensures tests { (bike : ℕ) (station : List ℕ)
        → refusal_in result ≡ first (tests view.now (command.End bike station dock)) }
    ensures bike { IfOk result (λ e. view.now.bike ≡ Some e.bike.now) }
    ensures rental { IfOk result (λ e. view.now.rental ≡ Some e.rental.now) }
    ensures station { IfOk result (λ e. IsSome view.now.station) }
{
    let Some(bike) = &view.bike else {
        return Err(Refusal::UnknownBike);
    };
    let Some(rental) = &view.rental else {
        return Err(Refusal::NotRented);
    };
    let Some(station) = &view.station else {
        return Err(Refusal::UnknownStation);
    };
    if station.docks.get() < dock.get() {
        return Err(Refusal::UnknownDock);
    }
    if !(station.is_installed && station.is_returning) {
        return Err(Refusal::NotReturning);
    }
    if view.is_dock_broken {
        return Err(Refusal::DockBroken);
    }
    if view.docked.is_some() {
        return Err(Refusal::DockFull);
    }
    Ok(Ending { bike, rental })
}

/// Decides on the end of a bicycle's rental, at a dock.
pub(crate) fn decide_end<'a>(
    view: &'a View,
    now: Moment,
    bike: BicycleNumber,
    station: &'a Ident,
    dock: DockNumber,
) -> Decision<'a>
    requires { IsBounded view.now now }
    ensures decides { DecidesAt now view.now (command.End bike station.now dock) result }
    ensures found { IfOk result (FindsAt now view.now (command.End bike station.now dock)) }
{
    let ending = match check_end(view, dock) {
        Ok(ending) => ending,
        Err(refusal) => return Err(refusal),
    };
    let booked = fare_booked(view.entries, ending.rental, now);
    let was = standing_of(ending.bike);
    let dock = dock.get();
    let becomes = BikeStatus {
        state: was.state,
        place: NewPlace::Dock { station, dock },
    };
    let at = DockAt {
        station,
        dock,
        is_broken: false,
    };
    let moved = Movement::AtDock {
        at,
        bike: bike.get(),
        type_id: &ending.bike.type_id,
        was,
        becomes,
    };
    Ok(Accepted {
        reply: ended_reply(&booked),
        moved: Some(moved),
        change: Some(closing(ending.rental, Some(station), &booked)),
        entry: Some(booked),
    })
}

/// The open rental, or the first refusal of a recovery.
fn check_recover(view: &View) -> Result<&RentalView, Refusal>
    ensures tests { (rental : ℕ) → refusal_in result ≡ first (tests view.now (command.Recover rental)) }
    ensures rental { IfOk result (λ r. view.now.rental ≡ Some r.now) }
    ensures is_open { IfOk result (λ r. is_open r.now.rental ≡ true) }
{
    let Some(row) = &view.rental else {
        return Err(Refusal::UnknownRental);
    };
    if row.rental.closing.is_some() {
        return Err(Refusal::RentalClosed);
    }
    Ok(row)
}

/// A recovered bicycle, which is disabled in the depot.
fn recovered<'a>(number: BicycleNumber, bike: &'a Option<Bike>) -> Option<Movement<'a>>
    ensures { IsRecovered number bike.now result }
{
    match bike {
        None => None,
        Some(row) => Some(Movement::Away {
            bike: number.get(),
            type_id: &row.type_id,
            was: standing_of(row),
            becomes: BikeStatus {
                state: BikeState::Disabled,
                place: NewPlace::Depot,
            },
        }),
    }
}

/// Decides on closing a rental whose bicycle was brought to the depot.
pub(crate) fn decide_recover<'a>(view: &'a View, now: Moment, rental: RentalNumber) -> Decision<'a>
    requires { IsBounded view.now now }
    ensures decides { DecidesAt now view.now (command.Recover rental) result }
    ensures found { IfOk result (FindsAt now view.now (command.Recover rental)) }
{
    let row = match check_recover(view) {
        Ok(row) => row,
        Err(refusal) => return Err(refusal),
    };
    let booked = fare_booked(view.entries, row, now);
    Ok(Accepted {
        reply: ended_reply(&booked),
        moved: recovered(row.rental.bike, &view.bike),
        change: Some(closing(row, None, &booked)),
        entry: Some(booked),
    })
}

/// A refund, and what of its rental is refunded with it.
#[derive(Clone, Copy)]
struct Refunding<'a> {
    rental: &'a RentalView,
    refunded: Cents,
}

/// The refund, or the first refusal of it.
fn check_refund(view: &View, amount: Payment) -> Result<Refunding<'_>, Refusal>
    // The refunds so far are no more than the fare.
    requires { IfSome view.now.rental (λ r. IfSome r.rental.closing (λ c. IsRefundable view.now.entries r c.fare)) }
    // Exactly the first refusal of the tests, or none.
    ensures tests { (rental : ℕ) → refusal_in result ≡ first (tests view.now (command.Refund rental amount)) }
    // Not refused: the rental of the view is closed, an entry has room, and what is refunded with this.
    ensures rental { IfOk result (λ r. view.now.rental ≡ Some r.rental.now) }
    ensures is_closed { IfOk result (λ r. IsSome r.rental.now.rental.closing) }
    ensures room { IfOk result (λ r. view.now.is_ledger_full ≡ false) }
    ensures refunded { IfOk result (λ r. r.refunded ≡ r.rental.now.refunded +ℤ pos amount) }
{
    let Some(row) = &view.rental else {
        return Err(Refusal::UnknownRental);
    };
    let Some(closing) = &row.rental.closing else {
        return Err(Refusal::RentalOpen);
    };
    if is_too_much(closing, row.refunded, amount) {
        return Err(Refusal::RefundTooLarge);
    }
    if view.is_ledger_full {
        return Err(Refusal::LimitReached);
    }
    Ok(Refunding {
        rental: row,
        refunded: sum_within(row.refunded, amount, closing.fare),
    })
}

/// Decides on a refund to the rider of a closed rental.
pub(crate) fn decide_refund<'a>(
    view: &View,
    now: Moment,
    rental: RentalNumber,
    amount: Payment,
) -> Decision<'a>
    requires { IsBounded view.now now }
    ensures decides { DecidesAt now view.now (command.Refund rental amount) result }
    ensures found { IfOk result (FindsAt now view.now (command.Refund rental amount)) }
{
    let refunding = match check_refund(view, amount) {
        Ok(refunding) => refunding,
        Err(refusal) => return Err(refusal),
    };
    let row = refunding.rental;
    let Some(number) = next_entry(view.entries) else {
        return Err(Refusal::LimitReached);
    };
    let entry = Entry::refund(number, row.rental.rider, row.number, amount, now);
    let booked = booked(row.balance, entry, Some(refunding.refunded));
    Ok(Accepted {
        reply: balance_reply(&booked),
        moved: None,
        change: None,
        entry: Some(booked),
    })
}
