//! Writing the text of a command.

ghost use Rattle.std.specs.Prelude.{◌≡◌, ◌++◌, ℕ, List, IfOk, OnOk, string_bytes};
ghost use Rattle.bike_commands.specs.declared.command.Command.{Command};
ghost use Rattle.bike_commands.specs.Commands.{text_of, IsCommand, IsSpelling, IsWrittenSpelling};

use crate::records::{
    put_add_plan, put_add_region, put_add_station, put_add_type, put_change_system,
    put_move_station, put_set_system,
};
use crate::spelled::put;
use bike_commands::Command;
use bike_texts::{BlockedField, BrokenField, DisabledField};
use std::alloc::{AllocError, Global};

/// References to values one behind another. A name stands with the type that says how its value is spelled, where the
/// value's own type doesn't.
macro_rules! values {
    ($name:ident) => { $name };
    ($name:ident : $wrap:ident) => { &$wrap { value: *$name } };
    ($name:ident $(: $wrap:ident)?, $($rest:tt)+) => { (values!($name $(: $wrap)?), values!($($rest)+)) };
}

/// Appends a word and fields by the variant: a row for each, behind the arms for records.
macro_rules! put_rows {
    ($out:ident, $command:ident, [$($record:pat => $put:expr),*]
        $($word:literal $variant:ident { $($name:ident $(: $wrap:ident)?),* })*
    ) => {
        match $command {
            $($record => $put,)*
            $(Command::$variant { $($name),* } => put($out, $word, &values!($($name $(: $wrap)?),*)),)*
        }
    };
}

/// Appends the command's word and fields.
fn put_command(out: &mut String, command: &Command) -> Result<(), AllocError>
    ensures { OnOk result (string_bytes out.new ≡ string_bytes out.old ++ text_of command.now) }
{
    put_rows! {
        out, command,
        [
            Command::SetSystem(system) => put_set_system(out, system),
            Command::AddPlan(plan) => put_add_plan(out, plan),
            Command::AddType(vehicle_type) => put_add_type(out, vehicle_type),
            Command::AddStation(station) => put_add_station(out, station),
            Command::AddRegion(region) => put_add_region(out, region),
            Command::ChangeSystem(settings) => put_change_system(out, settings),
            Command::MoveStation { station, position } => put_move_station(out, station, position)
        ]
        "set-plan" SetPlan { type_id, plan }
        "set-station" SetStation { station, installed, renting, returning }
        "mark-dock" MarkDock { station, dock, broken: BrokenField }
        "add-bike" AddBike { bike, type_id }
        "mark-bike" MarkBike { bike, disabled: DisabledField }
        "retire-bike" RetireBike { bike }
        "add-truck" AddTruck { truck, capacity }
        "add-rider" AddRider { rider }
        "set-rider" SetRider { rider, blocked: BlockedField }
        "top-up" TopUp { rider, amount }
        "start" Start { rider, station, dock }
        "end" End { bike, station, dock }
        "recover" Recover { rental }
        "refund" Refund { rental, amount }
        "open-order" OpenOrder { truck, from_end, to_end, type_id, count }
        "load" Load { truck, order, bike }
        "unload" Unload { truck, order, bike, side, dock }
        "close-order" CloseOrder { order }
        "set-region" SetRegion { station, region }
        "add-name" AddName { kind, id, language, name }
        "set-name" SetName { kind, id, language, name }
        "remove-name" RemoveName { kind, id, language }
        "add-docks" AddDocks { station, count }
    }
}

/// The command's text: its word and its fields, joined by TABs. Coordinates have six decimals. An error
/// where memory was refused.
pub fn command_text(alloc: Global, command: &Command) -> Result<String, AllocError>
    ensures { IfOk result (λ text. string_bytes text ≡ text_of command.now) }
{
    let mut out = String::new(alloc);
    put_command(&mut out, command)?;
    Ok(out)
}
/// The law of spelling: a command's text spells it; it is the one spelling whose coordinates are as they are written,
/// with six decimals, no needless zero in front and no minus before zero; and two commands have equal texts exactly
/// where they are equal.
pub fn command_text_law()
    ensures spells { (c : Command) → IsCommand c → IsSpelling (text_of c) c }
    ensures written { (c : Command) → IsCommand c → IsWrittenSpelling (text_of c) c }
    ensures only { (c : Command) (text : List ℕ) → IsWrittenSpelling text c → text ≡ text_of c }
    ensures apart { (c d : Command) → IsCommand c → IsCommand d → text_of c ≡ text_of d → c ≡ d }
{}
