//! What the commands on riders name.

ghost use Rattle.std.specs.Prelude.{◌≡◌, ℕ, Bool};
ghost use Rattle.bike_commands.specs.declared.command.Command.TheVariants as command;
ghost use Rattle.bike_operator.specs.Operator.{last_number};
ghost use Rattle.bike_operator.specs.View.{view_of};
ghost use Rattle.bike_schema.specs.Answers.{Answers};

use crate::empty::empty_view;
use crate::figures::is_ledger_full;
use bike_fields::RiderNumber;
use bike_office_reads::{are_riders_full, find_rider, has_rider};
use bike_operator::View;
use bike_schema::StatementFault;
use sqlite::{Alter, Connection};
use std::alloc::Global;

/// The view for a new rider.
pub(crate) fn view_to_add_rider<S: Alter>(
    conn: &mut Connection<S>,
    rider: RiderNumber,
) -> Result<View, StatementFault>
    ensures { Answers S.Store conn.old conn.new result (λ s m view. view ≡ view_of s (command.AddRider rider)) }
{
    let has_rider = has_rider(conn, rider)?;
    let is_full = are_riders_full(conn)?;
    Ok(View {
        has_rider,
        is_full,
        ..empty_view()
    })
}

/// The view for a rider who is blocked, or who may ride again.
pub(crate) fn view_to_set_rider<S: Alter>(
    conn: &mut Connection<S>,
    rider: RiderNumber,
) -> Result<View, StatementFault>
    ensures { Answers S.Store conn.old conn.new result
        (λ s m view. (blocked : Bool) → view ≡ view_of s (command.SetRider rider blocked)) }
{
    let has_rider = has_rider(conn, rider)?;
    Ok(View {
        has_rider,
        ..empty_view()
    })
}

/// The view for a top-up, where there are so many entries.
pub(crate) fn view_to_top_up<S: Alter>(
    alloc: Global,
    conn: &mut Connection<S>,
    rider: RiderNumber,
    entries: u32,
) -> Result<View, StatementFault>
    ensures { Answers S.Store conn.old conn.new result (λ s m view. entries ≡ last_number s.entries → (amount : ℕ)
        → view ≡ view_of s (command.TopUp rider amount)) }
{
    let rider = find_rider(alloc, conn, rider)?;
    let is_ledger_full = is_ledger_full(conn, entries)?;
    Ok(View {
        rider,
        is_ledger_full,
        entries,
        ..empty_view()
    })
}
