//! Row changes.

ghost use Rattle.std.specs.Prelude.{◌≡◌, IfOk, string_bytes};
ghost use Rattle.bike_book.specs.Writes.{record_write, write_of};
ghost use Rattle.bike_schema.specs.Calls.{Writes};
ghost use Rattle.bike_writes.specs.RowChanges.{sent_text, PutsRow};

use crate::catalogue::{
    add_plan, add_region, add_segment, add_type, change_system, set_plan, set_system,
};
use crate::fleet::{add_bike, add_truck, set_bike};
use crate::ledger::{add_entry, add_request};
use crate::names::{add_name, remove_name, set_further_name, set_own_name};
use crate::orders::{add_order, set_order};
use crate::rentals::{add_rental, close_rental, set_refunded};
use crate::riders::{add_rider, set_balance, set_rider};
use crate::stations::{
    add_dock, add_station, move_station, set_bikes_reported, set_dock, set_dock_count,
    set_docks_reported, set_region, set_station,
};
use bike_accepted::Change;
use bike_book::{RowChange, by_type_with};
use bike_schema::{OpenTransaction, StatementFault};
use sqlite::Alter;
use std::alloc::{AllocError, Global};

/// Puts, adds or removes the row of one record.
fn put_record<S: Alter>(
    tx: &mut OpenTransaction<'_, S>,
    change: &Change<'_>,
) -> Result<(), StatementFault>
    ensures { Writes S.Store tx.old.conn tx.new.conn result (record_write change.now) }
{
    match *change {
        Change::SetSystem(system) => set_system(tx, system),
        Change::AddPlan(plan) => add_plan(tx, plan),
        Change::AddType(vehicle_type) => add_type(tx, vehicle_type),
        Change::SetPlan { type_id, plan } => set_plan(tx, type_id, plan),
        Change::AddStation { station, reported } => add_station(tx, station, reported),
        Change::SetStation {
            station,
            is_installed,
            is_renting,
            is_returning,
            reported,
        } => set_station(
            tx,
            station,
            is_installed,
            is_renting,
            is_returning,
            reported,
        ),
        Change::AddRegion(region) => add_region(tx, region),
        Change::SetRegion { station, region } => set_region(tx, station, region),
        Change::AddName {
            kind,
            id,
            language,
            name,
        } => add_name(tx, kind, id, language, name),
        Change::SetOwnName { kind, id, name } => set_own_name(tx, kind, id, name),
        Change::SetFurtherName {
            kind,
            id,
            language,
            name,
        } => set_further_name(tx, kind, id, language, name),
        Change::RemoveName { kind, id, language } => remove_name(tx, kind, id, language),
        Change::ChangeSystem(settings) => change_system(tx, settings),
        Change::MoveStation { station, position } => move_station(tx, station, position),
        Change::AddBike { bike, type_id } => add_bike(tx, bike, type_id),
        Change::AddTruck { truck, capacity } => add_truck(tx, truck, capacity),
        Change::AddRider { rider } => add_rider(tx, rider),
        Change::SetRider { rider, is_blocked } => set_rider(tx, rider, is_blocked),
        Change::AddRental {
            rental,
            rider,
            bike,
            plan,
            from_station,
            start,
        } => add_rental(tx, rental, rider, bike, plan, from_station, start),
        Change::CloseRental {
            rental,
            to_station,
            finish,
            fare,
        } => close_rental(tx, rental, to_station, finish, fare),
        Change::AddOrder {
            order,
            truck,
            from_end,
            to_end,
            type_id,
            count,
        } => add_order(tx, order, truck, from_end, to_end, type_id, count),
        Change::SetOrder {
            order,
            delivered,
            is_open,
        } => set_order(tx, order, delivered, is_open),
    }
}

/// The text that a row change's statement is sent and that the change doesn't have: that of a station's bicycles by
/// type. Else it is empty.
fn text_sent(alloc: Global, change: &RowChange<'_>) -> Result<String, AllocError>
    ensures { IfOk result (λ text. string_bytes text ≡ sent_text change.now) }
{
    match *change {
        RowChange::SetBikesReported {
            by_type,
            type_id,
            counts,
            ..
        } => by_type_with(alloc, by_type, type_id, counts),
        _ => Ok(String::new(alloc)),
    }
}

/// Makes one row change, for which this text is sent.
fn put_with<S: Alter>(
    tx: &mut OpenTransaction<'_, S>,
    change: &RowChange<'_>,
    text: &str,
) -> Result<(), StatementFault>
    requires { text.now ≡ sent_text change.now }
    ensures { Writes S.Store tx.old.conn tx.new.conn result (write_of change.now) }
{
    match *change {
        RowChange::Record(change) => put_record(tx, change),
        RowChange::AddSegment { plan, seq, segment } => add_segment(tx, plan, seq, segment),
        RowChange::SetDockCount {
            station,
            docks,
            free,
        } => set_dock_count(tx, station, docks, free),
        RowChange::SetDocksReported {
            station,
            free,
            broken,
            reported,
        } => set_docks_reported(tx, station, free, broken, reported),
        RowChange::SetBikesReported {
            station,
            free,
            broken,
            reported,
            ..
        } => set_bikes_reported(tx, station, free, broken, text, reported),
        RowChange::AddDock {
            station,
            dock,
            is_broken,
        } => add_dock(tx, station, dock, is_broken),
        RowChange::SetDock {
            station,
            dock,
            is_broken,
        } => set_dock(tx, station, dock, is_broken),
        RowChange::SetBike { bike, state, place } => set_bike(tx, bike, state, &place),
        RowChange::SetBalance { rider, balance } => set_balance(tx, rider, balance),
        RowChange::SetRefunded { rental, refunded } => set_refunded(tx, rental, refunded),
        RowChange::AddEntry(entry) => add_entry(tx, entry),
        RowChange::AddRequest {
            number,
            moment,
            caller,
            key,
            command,
            reply,
        } => add_request(tx, number, moment, caller, key, command, reply),
    }
}

/// Makes one row change, inside the transaction. The key of a row that is added has to be free; columns that are set
/// in a row that isn't there change nothing, nor does the removal of such a row. `NoMemory` comes where the database,
/// or the text of a station's bicycles by type, wanted memory that was refused, and `StoreFailed` for all else that the
/// database refused. After an error the tables are as before the call, or the transaction is undone.
pub fn put<S: Alter>(
    alloc: Global,
    tx: &mut OpenTransaction<'_, S>,
    change: &RowChange<'_>,
) -> Result<(), StatementFault>
    ensures { PutsRow S.Store tx.old.conn tx.new.conn result (write_of change.now) }
{
    let text = text_sent(alloc, change)?;
    put_with(tx, change, text.as_str())
}
