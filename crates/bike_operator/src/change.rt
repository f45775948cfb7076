//! Where a bicycle is put.

use bike_fields::Ident;

/// Where a bicycle is put. Its numbers are those of the command and the view, or the next one.
#[derive(Clone, Copy)]
pub enum NewPlace<'a> {
    /// In a dock of a station.
    Dock { station: &'a Ident, dock: u32 },
    /// In an open rental.
    Rental { rental: u32 },
    /// On a truck, for an order.
    Truck { truck: u32, order: u32 },
    /// In the depot.
    Depot,
}
