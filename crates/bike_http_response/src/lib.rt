//! Answers of HTTP/1.1: the head and the JSON body of each.
//!
//! An answer is a plain value; its bytes are defined from it alone. Nothing here knows the operator or what was
//! asked. Writing takes no memory.
#![tactic(auto)]

mod answer;
mod body;
mod head;
mod members;
mod requests;
mod rows;
mod send;
mod status;

pub use answer::{Answer, RiderRow};
pub use body::write_body;
pub use head::{HEAD_ROOM, head_text};
pub use send::{body_length, write_answer};
pub use status::Status;
