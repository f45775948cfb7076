//! The audit of a database: what it is, and the first row that is not an operator's.
//!
//! `audit` recognises the database, and judges its tables one after the other in the order of the schema; a `Watch` is
//! told of each. `specs/Audit` says what it finds; by the laws of the rules a database is `Sound` exactly where its
//! tables stand for an operator.
//!
//! Taking a database into service: its tables are audited, and a desk begins with the operator for which they stand.
//!
//! No file is taken on trust. A database with none of the product's tables gets them; any other is adopted only where
//! its tables are those of a sound operator, and else the fault names its first bad row.
#![tactic(auto)]

mod adoption;
mod finding;
mod fresh_tables;
mod looking;
mod rules;
mod tables;
mod watch;

pub use adoption::{AdoptCause, AdoptFault, adopt, adopt_watched};
pub use finding::{Finding, audit};
pub use looking::{Inspection, look};
pub use tables::{BadRow, first_bad_row};
pub use watch::{NoWatch, Watch};
