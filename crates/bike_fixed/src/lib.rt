//! The lowest layer: whole numbers of a range, moments, money and coordinates.
//!
//! Each type keeps its bounds as an invariant. Its text is written without memory, reading a text is
//! exact in both directions, and a text read back gives the value.
#![tactic(auto)]

mod cents;
mod day;
mod digits;
mod micro;
mod moment;
mod whole;
mod within;

pub use cents::{Cents, GREATEST_FARE};
pub use day::{DayFault, day_bounds};
pub use micro::{GREATEST_COORDINATE, Micro, coordinate_laws};
pub use moment::{LAST_MOMENT, Moment};
pub use whole::{number_laws, read_signed, read_whole, signed_text};
pub use within::Within;
