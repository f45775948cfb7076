//! JSON as the public feeds carry it: written a token at a time, without memory.
//!
//! What is written is a front of one value's text (RFC 8259) at every moment, and the whole text once the
//! value is ended. A function that writes a value takes the state and an output beside it, and its contract
//! names the value; over `Discard`, which takes every byte, the same function gives the text's length.
#![tactic(auto)]

mod escape;
mod laws;
mod level;
mod member;
mod output;
mod state;
mod writer;

pub use laws::{string_laws, text_laws};
pub use level::Level;
pub use member::MemberName;
pub use output::{Discard, Output};
pub use state::JsonState;
pub use writer::JsonWriter;
