//! Files of a database that is only looked at: the database file, which is read and never written, and a copy of a log,
//! which is read and written in the log's place.
#![tactic(auto)]

mod copy;
mod read_only;
mod source;

pub use copy::{CopyFault, copy_of};
pub use read_only::ReadOnly;
pub use source::Source;
