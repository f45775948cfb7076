//! The desk: it serves requests over a database, each in one transaction.
//!
//! After every call, what is stored, and all that a crash at that moment may leave, stands for the operator
//! after the acknowledged requests, or after one more where the store failed in its midst.
#![tactic(auto)]

mod day;
mod desk;
mod fault;
mod history;
mod newest;
mod queries;
mod remembered;
mod run;
mod serve;
mod transaction;
mod walk;

pub use desk::Desk;
pub use fault::DeskFault;
pub use run::Run;
