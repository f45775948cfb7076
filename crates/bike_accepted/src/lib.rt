//! What an accepted request makes: its changes, entries and movements.
//!
//! An accepted command makes what is put or marked at a dock, one other record, and an entry, each with what was found
//! of it. So nothing of it has to be looked up again. `specs/` has what it makes of the operator, and when it is what
//! was found.
//!
//! The code here is these three as data, and what makes the parts of them, of places and of entries, from what a view
//! shows.
#![tactic(auto)]

mod accepted;
mod booking;
mod change;
mod movement;
mod places;

pub use accepted::{Accepted, BookedEntry, Decision};
pub use booking::{
    balance_reply, booked, closing, ended_reply, fare_booked, is_too_much, next_entry, next_number,
    sum_within,
};
pub use change::Change;
pub use movement::{BikeStatus, DockAt, DockOccupant, Movement};
pub use places::{
    end_at, ends_apart, held_in, is_at_end, is_depot, is_fit, is_loaded, is_retired, is_same_end,
    put_at_end, put_from, standing_of,
};
