//! The statements on `system`, `plans`, `segments`, `types` and `regions`.

ghost use Rattle.bike_accepted.specs.declared.change.Change.TheVariants as change;
ghost use Rattle.bike_book.specs.declared.row_change.RowChange.TheVariants as row;
ghost use Rattle.bike_book.specs.Writes.{record_write, write_of};
ghost use Rattle.bike_schema.specs.Calls.{Writes};

use bike_book::table;
use bike_catalogue::{Plan, Region, Settings, System, VehicleType};
use bike_fields::{Ident, Segment};
use bike_schema::{OpenTransaction, StatementFault};
use bike_sql::write::run;
use sqlite::{Alter, params};

/// Adds the one row of `system`.
pub(crate) fn set_system<S: Alter>(
    tx: &mut OpenTransaction<'_, S>,
    system: &System,
) -> Result<(), StatementFault>
    ensures { Writes S.Store tx.old.conn tx.new.conn result (record_write (change.SetSystem system.entry)) }
{
    run(
        tx,
        table!(insert system),
        params![
            1_i64,
            system.system_id().as_str(),
            system.language().as_str(),
            system.name().as_str(),
            system.opening_hours().as_str(),
            system.feed_contact_email().as_str(),
            system.timezone().as_str(),
            system.currency().as_str(),
            system.base_url().as_str(),
            system.ttl().get()
        ],
    )
}

/// Sets the columns of `system` that may change.
pub(crate) fn change_system<S: Alter>(
    tx: &mut OpenTransaction<'_, S>,
    settings: &Settings,
) -> Result<(), StatementFault>
    ensures { Writes S.Store tx.old.conn tx.new.conn result (record_write (change.ChangeSystem settings.entry)) }
{
    run(
        tx,
        "UPDATE system SET name = ?2, hours = ?3, contact = ?4, zone = ?5, base_url = ?6, ttl = ?7 WHERE one = ?1",
        params![
            1_i64,
            settings.name().as_str(),
            settings.opening_hours().as_str(),
            settings.feed_contact_email().as_str(),
            settings.timezone().as_str(),
            settings.base_url().as_str(),
            settings.ttl().get()
        ],
    )
}

/// Adds a plan, without its segments.
pub(crate) fn add_plan<S: Alter>(
    tx: &mut OpenTransaction<'_, S>,
    plan: &Plan,
) -> Result<(), StatementFault>
    ensures { Writes S.Store tx.old.conn tx.new.conn result (record_write (change.AddPlan plan.entry)) }
{
    run(
        tx,
        table!(insert plans),
        params![
            plan.plan_id().as_str(),
            plan.name().as_str(),
            plan.price().get(),
            plan.taxable(),
            plan.description().as_str()
        ],
    )
}

/// Adds the `seq`-th segment of a plan.
pub(crate) fn add_segment<S: Alter>(
    tx: &mut OpenTransaction<'_, S>,
    plan: &Ident,
    seq: u32,
    segment: &Segment,
) -> Result<(), StatementFault>
    ensures { Writes S.Store tx.old.conn tx.new.conn result (write_of (row.AddSegment plan.entry seq segment.entry)) }
{
    run(
        tx,
        table!(insert segments),
        params![
            plan.as_str(),
            seq,
            segment.start(),
            segment.rate(),
            segment.interval(),
            segment.end()
        ],
    )
}

/// Adds a vehicle type.
pub(crate) fn add_type<S: Alter>(
    tx: &mut OpenTransaction<'_, S>,
    vehicle_type: &VehicleType,
) -> Result<(), StatementFault>
    ensures { Writes S.Store tx.old.conn tx.new.conn result (record_write (change.AddType vehicle_type.entry)) }
{
    run(
        tx,
        table!(insert types),
        params![
            vehicle_type.type_id().as_str(),
            vehicle_type.name().as_str(),
            vehicle_type.form().as_str(),
            vehicle_type.propulsion().as_str(),
            vehicle_type.max_range().get(),
            vehicle_type.plan_id().as_str()
        ],
    )
}

/// Sets the default plan of a type.
pub(crate) fn set_plan<S: Alter>(
    tx: &mut OpenTransaction<'_, S>,
    type_id: &Ident,
    plan: &Ident,
) -> Result<(), StatementFault>
    ensures { Writes S.Store tx.old.conn tx.new.conn result (record_write (change.SetPlan type_id.entry plan.entry)) }
{
    run(
        tx,
        "UPDATE types SET plan_id = ?2 WHERE type_id = ?1",
        params![type_id.as_str(), plan.as_str()],
    )
}

/// Adds a region.
pub(crate) fn add_region<S: Alter>(
    tx: &mut OpenTransaction<'_, S>,
    region: &Region,
) -> Result<(), StatementFault>
    ensures { Writes S.Store tx.old.conn tx.new.conn result (record_write (change.AddRegion region.entry)) }
{
    run(
        tx,
        table!(insert regions),
        params![region.region_id().as_str(), region.name().as_str()],
    )
}
