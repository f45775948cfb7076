//! What the commands on the system, pricing plans, vehicle types and new regions name.

ghost use Rattle.std.specs.Prelude.{◌≡◌, is_some};
ghost use Rattle.bike_commands.specs.declared.command.Command.TheVariants as command;
ghost use Rattle.bike_operator.specs.View.{empty_view, type_view, view_of};
ghost use Rattle.bike_schema.specs.Answers.{Answers};

use crate::empty::empty_view;
use bike_catalogue::{Plan, Region, VehicleType};
use bike_fields::Ident;
use bike_fleet_reads::{are_regions_full, are_types_full, has_region, has_type};
use bike_office_reads::{are_plans_full, has_plan, has_system};
use bike_operator::View;
use bike_schema::StatementFault;
use sqlite::{Alter, Connection};

/// Whether the system is set, for its setting and for other settings.
pub(crate) fn find_system_view<S: Alter>(conn: &mut Connection<S>) -> Result<View, StatementFault>
    ensures { Answers S.Store conn.old conn.new result
        (λ s m view. view ≡ record empty_view { has_system = is_some s.system }) }
{
    let has_system = has_system(conn)?;
    Ok(View {
        has_system,
        ..empty_view()
    })
}

/// The view for a new pricing plan.
pub(crate) fn view_to_add_plan<S: Alter>(
    conn: &mut Connection<S>,
    plan: &Plan,
) -> Result<View, StatementFault>
    ensures { Answers S.Store conn.old conn.new result (λ s m view. view ≡ view_of s (command.AddPlan plan.now)) }
{
    let has_plan = has_plan(conn, plan.plan_id())?;
    let is_full = are_plans_full(conn)?;
    Ok(View {
        has_plan,
        is_full,
        ..empty_view()
    })
}

/// Whether a vehicle type and a plan are there.
pub(crate) fn find_type_view<S: Alter>(
    conn: &mut Connection<S>,
    type_id: &Ident,
    plan: &Ident,
) -> Result<View, StatementFault>
    ensures { Answers S.Store conn.old conn.new result (λ s m view. view ≡ type_view s type_id.now plan.now) }
{
    let has_type = has_type(conn, type_id)?;
    let has_plan = has_plan(conn, plan)?;
    Ok(View {
        has_type,
        has_plan,
        ..empty_view()
    })
}

/// The view for a new vehicle type.
pub(crate) fn view_to_add_type<S: Alter>(
    conn: &mut Connection<S>,
    added: &VehicleType,
) -> Result<View, StatementFault>
    ensures { Answers S.Store conn.old conn.new result (λ s m view. view ≡ view_of s (command.AddType added.now)) }
{
    let is_full = are_types_full(conn)?;
    let view = find_type_view(conn, added.type_id(), added.plan_id())?;
    Ok(View { is_full, ..view })
}

/// The view for a new region.
pub(crate) fn view_to_add_region<S: Alter>(
    conn: &mut Connection<S>,
    added: &Region,
) -> Result<View, StatementFault>
    ensures { Answers S.Store conn.old conn.new result
        (λ s m view. view ≡ view_of s (command.AddRegion added.now)) }
{
    let has_region = has_region(conn, added.region_id())?;
    let is_full = are_regions_full(conn)?;
    Ok(View {
        has_region,
        is_full,
        ..empty_view()
    })
}
