//! Commands, requests, replies and refusals, how each is spelled, and the texts of replies.
//!
//! A text is a word and fields with a TAB between them. A command has one spelling, but for its coordinates;
//! a reply has one, and is read exactly where a text spells it.
#![tactic(auto)]

mod command;
mod refusal;
mod reply;
mod request;

pub use command::Command;
pub use refusal::Refusal;
pub use reply::{REPLY_LENGTH, Reply};
pub use request::{LINE_LENGTH, Request};
