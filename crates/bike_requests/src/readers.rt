//! Reading the fields of each command: its values, in order, and what they make.
#![tactic(auto, unfolding(crate::specs::Readers::command_by))]

ghost use Rattle.std.specs.Prelude.{codes};
ghost use Rattle.bike_requests.specs.Readers.{command_by};
ghost use Rattle.bike_requests.specs.Unread.{IsReading};

use crate::spelled::read;
use crate::unread::Unread;
use bike_commands::Command;
use bike_texts::{BlockedField, BrokenField, DisabledField, Fields};
use std::alloc::Global;

/// The pattern of values one behind another. A name stands with the type that says how its value is spelled, where the
/// value's own type doesn't.
macro_rules! pattern {
    ($name:ident) => { $name };
    ($name:ident : $wrap:ident) => { $wrap { value: $name } };
    ($name:ident $(: $wrap:ident)?, $($rest:tt)+) => { (pattern!($name $(: $wrap)?), pattern!($($rest)+)) };
}

/// The variant of the values that all fields spell.
macro_rules! read_as {
    ($alloc:ident, $fields:ident => $variant:ident: $($name:ident $(: $wrap:ident)?),*) => {{
        let pattern!($($name $(: $wrap)?),*) = read($alloc, $fields)?;
        Ok(Command::$variant { $($name),* })
    }};
}

pub(crate) fn read_set_plan(alloc: Global, fields: Fields) -> Result<Command, Unread>
    ensures { IsReading (command_by (codes "set-plan") fields.entry) result }
{
    read_as!(alloc, fields => SetPlan: type_id, plan)
}

pub(crate) fn read_set_station(alloc: Global, fields: Fields) -> Result<Command, Unread>
    ensures { IsReading (command_by (codes "set-station") fields.entry) result }
{
    read_as!(alloc, fields => SetStation: station, installed, renting, returning)
}

pub(crate) fn read_mark_dock(alloc: Global, fields: Fields) -> Result<Command, Unread>
    ensures { IsReading (command_by (codes "mark-dock") fields.entry) result }
{
    read_as!(alloc, fields => MarkDock: station, dock, broken: BrokenField)
}

pub(crate) fn read_add_bike(alloc: Global, fields: Fields) -> Result<Command, Unread>
    ensures { IsReading (command_by (codes "add-bike") fields.entry) result }
{
    read_as!(alloc, fields => AddBike: bike, type_id)
}

pub(crate) fn read_mark_bike(alloc: Global, fields: Fields) -> Result<Command, Unread>
    ensures { IsReading (command_by (codes "mark-bike") fields.entry) result }
{
    read_as!(alloc, fields => MarkBike: bike, disabled: DisabledField)
}

pub(crate) fn read_retire_bike(alloc: Global, fields: Fields) -> Result<Command, Unread>
    ensures { IsReading (command_by (codes "retire-bike") fields.entry) result }
{
    read_as!(alloc, fields => RetireBike: bike)
}

pub(crate) fn read_add_truck(alloc: Global, fields: Fields) -> Result<Command, Unread>
    ensures { IsReading (command_by (codes "add-truck") fields.entry) result }
{
    read_as!(alloc, fields => AddTruck: truck, capacity)
}

pub(crate) fn read_add_rider(alloc: Global, fields: Fields) -> Result<Command, Unread>
    ensures { IsReading (command_by (codes "add-rider") fields.entry) result }
{
    read_as!(alloc, fields => AddRider: rider)
}

pub(crate) fn read_set_rider(alloc: Global, fields: Fields) -> Result<Command, Unread>
    ensures { IsReading (command_by (codes "set-rider") fields.entry) result }
{
    read_as!(alloc, fields => SetRider: rider, blocked: BlockedField)
}

pub(crate) fn read_top_up(alloc: Global, fields: Fields) -> Result<Command, Unread>
    ensures { IsReading (command_by (codes "top-up") fields.entry) result }
{
    read_as!(alloc, fields => TopUp: rider, amount)
}

pub(crate) fn read_start(alloc: Global, fields: Fields) -> Result<Command, Unread>
    ensures { IsReading (command_by (codes "start") fields.entry) result }
{
    read_as!(alloc, fields => Start: rider, station, dock)
}

pub(crate) fn read_end(alloc: Global, fields: Fields) -> Result<Command, Unread>
    ensures { IsReading (command_by (codes "end") fields.entry) result }
{
    read_as!(alloc, fields => End: bike, station, dock)
}

pub(crate) fn read_recover(alloc: Global, fields: Fields) -> Result<Command, Unread>
    ensures { IsReading (command_by (codes "recover") fields.entry) result }
{
    read_as!(alloc, fields => Recover: rental)
}

pub(crate) fn read_refund(alloc: Global, fields: Fields) -> Result<Command, Unread>
    ensures { IsReading (command_by (codes "refund") fields.entry) result }
{
    read_as!(alloc, fields => Refund: rental, amount)
}

pub(crate) fn read_open_order(alloc: Global, fields: Fields) -> Result<Command, Unread>
    ensures { IsReading (command_by (codes "open-order") fields.entry) result }
{
    read_as!(alloc, fields => OpenOrder: truck, from_end, to_end, type_id, count)
}

pub(crate) fn read_load(alloc: Global, fields: Fields) -> Result<Command, Unread>
    ensures { IsReading (command_by (codes "load") fields.entry) result }
{
    read_as!(alloc, fields => Load: truck, order, bike)
}

pub(crate) fn read_unload(alloc: Global, fields: Fields) -> Result<Command, Unread>
    ensures { IsReading (command_by (codes "unload") fields.entry) result }
{
    read_as!(alloc, fields => Unload: truck, order, bike, side, dock)
}

pub(crate) fn read_close_order(alloc: Global, fields: Fields) -> Result<Command, Unread>
    ensures { IsReading (command_by (codes "close-order") fields.entry) result }
{
    read_as!(alloc, fields => CloseOrder: order)
}

pub(crate) fn read_set_region(alloc: Global, fields: Fields) -> Result<Command, Unread>
    ensures { IsReading (command_by (codes "set-region") fields.entry) result }
{
    read_as!(alloc, fields => SetRegion: station, region)
}

pub(crate) fn read_add_name(alloc: Global, fields: Fields) -> Result<Command, Unread>
    ensures { IsReading (command_by (codes "add-name") fields.entry) result }
{
    read_as!(alloc, fields => AddName: kind, id, language, name)
}

pub(crate) fn read_set_name(alloc: Global, fields: Fields) -> Result<Command, Unread>
    ensures { IsReading (command_by (codes "set-name") fields.entry) result }
{
    read_as!(alloc, fields => SetName: kind, id, language, name)
}

pub(crate) fn read_remove_name(alloc: Global, fields: Fields) -> Result<Command, Unread>
    ensures { IsReading (command_by (codes "remove-name") fields.entry) result }
{
    read_as!(alloc, fields => RemoveName: kind, id, language)
}

pub(crate) fn read_add_docks(alloc: Global, fields: Fields) -> Result<Command, Unread>
    ensures { IsReading (command_by (codes "add-docks") fields.entry) result }
{
    read_as!(alloc, fields => AddDocks: station, count)
}
