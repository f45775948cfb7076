//! The feeds of a desk: each is read from the stored tables, one element of a list at a time, and written as it is
//! read.
//!
//! A feed's text is that of the operator for which the desk stands, for the moment that is asked for, byte for byte. No
//! more of a city is held than one element of a list with its further names (a plan with its segments), of stations a
//! page (with their counts or their names), and the identifiers of the vehicle types. Where a city has no further
//! names, no element asks for any.
#![tactic(auto)]

mod fault;
mod feed;
mod items;
mod list;
mod listed;
mod listing;
mod names;
mod pages;

pub use fault::FeedFault;
pub use feed::write_feed;
