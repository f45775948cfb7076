//! The keys of what is shown.

use bike_fields::{BicycleNumber, OrderNumber, RentalNumber, RiderNumber};

/// The greatest number that a request of the history can have: it fits a signed integer of 64 bits.
pub const GREATEST_REQUEST: u64 = 9_223_372_036_854_775_807;

/// The key of what is shown: its kind and a number.
#[derive(Clone, Copy)]
pub enum RowKey {
    /// The rider of that number.
    Rider(RiderNumber),
    /// The bicycle of that number.
    Bike(BicycleNumber),
    /// The rental of that number.
    Rental(RentalNumber),
    /// The order of that number.
    Order(OrderNumber),
    /// The requests of the history behind that number: the first of them, a page.
    History(u64),
}
