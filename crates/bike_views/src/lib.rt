//! What a request needs of the tables before it is decided: the view of the operator for its command.
//!
//! A part that several commands have is read by a function of its own, and each command puts its view together.
#![tactic(auto)]

mod bikes;
mod catalogue;
mod docks;
mod empty;
mod figures;
mod names;
mod orders;
mod rentals;
mod riders;
mod stations;
mod stored;
mod view;
mod view_and_docks;

pub use figures::{KnownFigures, find_figures, know_figures};
pub use stored::find_stored;
pub use view::find_view;
pub use view_and_docks::{DockListing, StationDocks, ViewAndDocks};
