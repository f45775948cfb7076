//! Decisions on the commands of a bike share's operator, each with what was found for it.
//!
//! `decide` answers, on the view of an operator, exactly the first refusal that holds, or else the reply and what makes
//! the effect. It takes no memory.
//!
//! What a caller names stands here too: commands, requests, replies and refusals, the view of an operator and what an
//! accepted command makes. A command's text and its readers stand in `bike_requests`. The parts of which decisions are
//! made, of places and of entries, stand in `bike_accepted`.
#![tactic(auto)]

mod decide_bikes;
mod decide_catalogue;
mod decide_names;
mod decide_orders;
mod decide_regions;
mod decide_rentals;
mod decide_riders;
mod decision;

pub use bike_accepted::{Accepted, Change, Decision, Movement};
pub use bike_commands::{Command, Refusal, Reply, Request};
pub use bike_operator::View;
pub use decision::decide;
