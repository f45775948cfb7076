//! What the program tells on its streams, and the files that it opens.
//!
//! How it ends is told by a line on standard error and an exit status, and long work by a line that is taken away at
//! its end. No line takes memory: each is written in pieces, of which a failure leaves a front.
#![tactic(auto)]

mod blank;
mod closing;
mod end;
mod file;
mod found;
mod link;
mod log;
mod look;
mod options;
mod pieces;
mod place;
mod progress;

pub use closing::{Remains, settle};
pub use end::{Fault, exit_code};
pub use file::open_file;
pub use log::LEAST_LOG;
pub use look::{KeptFiles, Snapshot, SnapshotSource, open_to_look};
pub use pieces::{put, put_number};
pub use place::{NewLog, Wanted, prepare_file};
pub use progress::{CountingReader, Progress};
