//! The words of the program's command line: a word, the FILE that it is for, and its other values.
//!
//! The program is declared to clap, and what is answered is what clap's own definitions find in the words. Nothing
//! here opens a file or prints.
#![tactic(auto)]

mod help;
mod laws;
mod mistake;
mod parsing;
mod program;
mod reading;
mod task;
mod telling;
mod value;
mod word;

pub use help::{usage, usage_of};
pub use laws::word_laws;
pub use mistake::Mistake;
pub use reading::{Words, WordsFault, read_words};
pub use task::{FileTask, Task};
pub use value::Value;
pub use word::Word;
