//! The texts of commands, and request lines.
//!
//! A command has one spelling, but for its coordinates. Reading is exact in both directions: a value is
//! answered where the text spells one, and nothing only where it spells none.
//!
//! A command is a word and values one behind another. A type says once how its values are read and how they are
//! written (`Spelled`), pairs do it for any number of them, and memory is asked for once all fields are tested.
#![tactic(auto)]

mod again;
mod line;
mod owned;
mod plain;
mod readers;
mod reading;
mod records;
mod spelled;
mod unread;
mod writing;

pub use again::line_again_law;
pub use line::read_line;
pub use reading::read_command;
pub use writing::{command_text, command_text_law};
