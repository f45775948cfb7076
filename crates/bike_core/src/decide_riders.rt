//! Decisions on riders and their payments.

ghost use Rattle.std.specs.Prelude.{IfOk};
ghost use Rattle.bike_commands.specs.declared.command.Command.TheVariants as command;
ghost use Rattle.bike_accepted.specs.Effects.{DecidesAt, DecidesOn};
ghost use Rattle.bike_operator.specs.Bounds.{IsBounded};
ghost use Rattle.bike_accepted.specs.Found.{FindsAt, FindsOn};

use bike_accepted::{Accepted, Change, Decision, balance_reply, booked, next_entry};
use bike_commands::Refusal;
use bike_fields::{Payment, RiderNumber};
use bike_fixed::Moment;
use bike_ledger::Entry;
use bike_operator::View;

/// Decides on a new rider.
pub(crate) fn decide_add_rider<'a>(view: &View, rider: RiderNumber) -> Decision<'a>
    ensures decides { DecidesOn view.now (command.AddRider rider) result }
    ensures found { IfOk result (FindsOn view.now (command.AddRider rider)) }
{
    if view.has_rider {
        return Err(Refusal::AlreadyThere);
    }
    if view.is_full {
        return Err(Refusal::LimitReached);
    }
    Ok(Accepted {
        change: Some(Change::AddRider { rider: rider.get() }),
        ..Accepted::done()
    })
}

/// Decides on a rider who is blocked, or may ride again.
pub(crate) fn decide_set_rider<'a>(
    view: &View,
    rider: RiderNumber,
    is_blocked: bool,
) -> Decision<'a>
    ensures decides { DecidesOn view.now (command.SetRider rider is_blocked) result }
    ensures found { IfOk result (FindsOn view.now (command.SetRider rider is_blocked)) }
{
    if !view.has_rider {
        return Err(Refusal::UnknownRider);
    }
    let change = Change::SetRider {
        rider: rider.get(),
        is_blocked,
    };
    Ok(Accepted {
        change: Some(change),
        ..Accepted::done()
    })
}

/// Decides on a top-up: one entry.
pub(crate) fn decide_top_up<'a>(
    view: &View,
    now: Moment,
    rider: RiderNumber,
    amount: Payment,
) -> Decision<'a>
    requires { IsBounded view.now now }
    ensures decides { DecidesAt now view.now (command.TopUp rider amount) result }
    ensures found { IfOk result (FindsAt now view.now (command.TopUp rider amount)) }
{
    let Some(row) = &view.rider else {
        return Err(Refusal::UnknownRider);
    };
    if view.is_ledger_full {
        return Err(Refusal::LimitReached);
    }
    let Some(number) = next_entry(view.entries) else {
        return Err(Refusal::LimitReached);
    };
    let booked = booked(row.balance, Entry::top_up(number, rider, amount, now), None);
    Ok(Accepted {
        reply: balance_reply(&booked),
        moved: None,
        change: None,
        entry: Some(booked),
    })
}
