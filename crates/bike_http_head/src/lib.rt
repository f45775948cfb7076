//! Request heads of HTTP/1.1: what one asks for, and how long its body is.
//!
//! A head is what the grammar of `httparse` calls one, of at most 8,192 bytes and 32 fields. Its target's path
//! takes one of the product's routes, or none; its fields tell the length of the body. Nothing here knows the
//! operator.
#![tactic(auto)]

mod head;
mod length;
mod path;
mod rejection;
mod routes;
mod row_key;

pub use head::{HEAD_LENGTH, Head, HeadReading, MOST_FIELDS, read_head};
pub use length::{BODY_LENGTH, BodyLength};
pub use path::{may_ask_feed, path_of};
pub use rejection::{Allow, Rejection};
pub use routes::{Route, RouteMatch, Routes, route_laws};
pub use row_key::{GREATEST_REQUEST, RowKey};
