//! The fields of which the texts of commands and replies are made, how each is spelled, and the reader of
//! them. And the values that need no memory, with the fields in which they stand (`Plain`), and what writes fields.
//!
//! A text is cut at its separators, and the next part is read as a field of one kind: a number or an amount,
//! a coordinate, a name with escapes, the segments of a plan, an end of an order, a word. Reading is exact in
//! both directions: a value is answered where the part spells one, and nothing only where it spells none.
#![tactic(auto)]

mod ends;
mod escapes;
mod fare;
mod fields;
mod plain;
mod put_texts;
mod segments;
mod values;

pub use ends::{EndName, OrderEnd, Side, UnloadDock};
pub use escapes::{AsciiText, NameText};
pub use fare::Fare;
pub use fields::Fields;
pub use plain::{BlockedField, BrokenField, Degrees, DisabledField, Plain, Range};
pub use put_texts::{put_escaped, put_number, put_segments, put_text};
pub use segments::SegmentList;
