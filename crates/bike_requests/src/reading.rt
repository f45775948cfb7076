//! Reading the text of a command.

ghost use Rattle.std.specs.Prelude.{◌≡◌, IfOk, IfErr, IfSome, Some};
ghost use Rattle.bike_commands.specs.declared.command.Command.{Command};
ghost use Rattle.bike_commands.specs.Commands.{IsSpelling, IsCommand};
ghost use Rattle.bike_requests.specs.Unread.{IsReading};
ghost use Rattle.bike_requests.specs.Readers.{command_by, command_at};
ghost use Rattle.bike_requests.specs.Spelling.{SpellsCommand};

use crate::readers::{
    read_add_bike, read_add_docks, read_add_name, read_add_rider, read_add_truck, read_close_order,
    read_end, read_load, read_mark_bike, read_mark_dock, read_open_order, read_recover,
    read_refund, read_remove_name, read_retire_bike, read_set_name, read_set_plan, read_set_region,
    read_set_rider, read_set_station, read_start, read_top_up, read_unload,
};
use crate::records::{
    read_add_plan, read_add_region, read_add_station, read_add_type, read_change_system,
    read_move_station, read_set_system,
};
use crate::unread::{Unread, none_if_bad};
use bike_commands::Command;
use bike_texts::Fields;
use std::alloc::{AllocError, Global};

/// The command of that word, whose fields are all that is left.
fn read_fields(alloc: Global, word: &str, fields: Fields) -> Result<Command, Unread>
    ensures { IsReading (command_by word.now fields.entry) result }
{
    match word {
        "set-system" => read_set_system(alloc, fields),
        "add-plan" => read_add_plan(alloc, fields),
        "add-type" => read_add_type(alloc, fields),
        "set-plan" => read_set_plan(alloc, fields),
        "add-station" => read_add_station(alloc, fields),
        "set-station" => read_set_station(alloc, fields),
        "mark-dock" => read_mark_dock(alloc, fields),
        "add-bike" => read_add_bike(alloc, fields),
        "mark-bike" => read_mark_bike(alloc, fields),
        "retire-bike" => read_retire_bike(alloc, fields),
        "add-truck" => read_add_truck(alloc, fields),
        "add-rider" => read_add_rider(alloc, fields),
        "set-rider" => read_set_rider(alloc, fields),
        "top-up" => read_top_up(alloc, fields),
        "start" => read_start(alloc, fields),
        "end" => read_end(alloc, fields),
        "recover" => read_recover(alloc, fields),
        "refund" => read_refund(alloc, fields),
        "open-order" => read_open_order(alloc, fields),
        "load" => read_load(alloc, fields),
        "unload" => read_unload(alloc, fields),
        "close-order" => read_close_order(alloc, fields),
        "add-region" => read_add_region(alloc, fields),
        "set-region" => read_set_region(alloc, fields),
        "add-name" => read_add_name(alloc, fields),
        "set-name" => read_set_name(alloc, fields),
        "remove-name" => read_remove_name(alloc, fields),
        "change-system" => read_change_system(alloc, fields),
        "move-station" => read_move_station(alloc, fields),
        "add-docks" => read_add_docks(alloc, fields),
        _ => {
            #[tactic(auto, unfolding(crate::specs::Readers::command_by))]
            return Err(Unread::BadField);
        }
    }
}

/// The command whose word and fields are all that is left; memory is asked for only by a command.
#[tactic(auto, unfolding(crate::specs::Readers::command_at))]
pub fn read_rest(alloc: Global, mut fields: Fields) -> Result<Command, Unread>
    ensures { IsReading (command_at fields.entry) result }
{
    let word = fields.part().ok_or(Unread::BadField)?;
    read_fields(alloc, word, fields)
}

/// The command that the text spells: its word and its fields, joined by single TABs. None where it spells none; an
/// error where memory was refused, which only a text that spells a command asks for.
pub fn read_command(alloc: Global, text: &str) -> Result<Option<Command>, AllocError>
    ensures found { IfOk result (λ o. IfSome o (λ c. IsSpelling text.now c × IsCommand c)) }
    ensures only { IfOk result (λ o. (c : Command) → IsCommand c → IsSpelling text.now c → o ≡ Some c) }
    ensures spared { IfErr result (λ _. SpellsCommand text.now) }
{
    none_if_bad(read_rest(alloc, Fields::of(text)))
}
