//! The fields of records and requests: the small texts and numbers that name things, and what records are made of:
//! rates, segments, positions, forms, kinds of names.
//!
//! A value of a type here keeps the type's bounds, and a method tells them to a proof. A constructor answers the value
//! of what is given, or names the first bound that it breaks.
#![tactic(auto)]

mod bytes;
mod caller;
mod fault;
mod limits;
mod name_kind;
mod numbers;
mod position;
mod range;
mod rate;
mod segment;
mod text;
mod text_kind;
mod text_lengths;
mod vehicle;

pub use caller::{Caller, CallerName, caller_laws};
pub use fault::{Bound, Field, FieldFault};
pub use limits::{GREATEST_LATITUDE, GREATEST_RATE, MOST_SEGMENTS};
pub use name_kind::{NameKind, name_kind_laws};
pub use numbers::{
    BicycleNumber, DockCount, DockNumber, DockTotal, GREATEST_NUMBER, GREATEST_PAYMENT,
    GREATEST_PRICE, GREATEST_RANGE, GREATEST_SERIAL, LAST_MINUTE, LONGEST_TIME_TO_LIVE,
    MOST_CARRIED, MOST_DOCKS, MaxRange, OrderNumber, OrderQuantity, Payment, Price, RentalNumber,
    RiderNumber, SegmentMinute, TimeToLive, TruckCapacity, TruckNumber, kind,
};
pub use position::Position;
pub use range::{coordinate, in_range};
pub use rate::Rate;
pub use segment::Segment;
pub use text::{Ascii, Currency, Ident, Language, Name, RequestKey, Text};
pub use text_kind::TextKind;
pub use text_lengths::{
    CURRENCY_LENGTH, LONGEST_ASCII, LONGEST_IDENT, LONGEST_KEY, LONGEST_LANGUAGE, LONGEST_NAME,
    SHORTEST_LANGUAGE,
};
pub use vehicle::{Form, Propulsion, vehicle_laws};
