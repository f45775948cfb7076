//! The promise of the whole: a list of requests is served, the program stops, and what is left is taken into service
//! again.
//!
//! What is read then is that of the operator after a front of the list, which holds every acknowledged request and at
//! most one more. It is said of any two stores, of one that crashes, and of files: those that a process leaves, and
//! those that the next one opens.
//!
//! `archived_feeds_law` says that what is published doesn't change by archiving.
//!
//! `bounds` says the numbers behind the bounds that contracts name.
#![tactic(auto)]

mod archiving;
mod bounds;
mod crash;
mod files;
mod raising;
mod reading;
mod reopening;
mod sessions;
mod stop;

pub use archiving::archived_feeds_law;
pub use bounds::{input_bounds, number_bounds, record_limits, text_bounds};
pub use crash::{Acknowledged, Lost, run_adopt_and_read, run_crash_and_read, run_in_memory};
pub use files::{NotOpened, stop_and_open};
pub use raising::{Unraised, raise_crash_and_read};
pub use reading::{Reading, read_again};
pub use reopening::{Shut, open_again};
pub use sessions::{SessionsServed, serve_sessions, serve_sessions_in_memory};
pub use stop::{LostFiles, run_stop_and_read};
