//! Numbers with a name of their own.

use bike_fixed::Within;

/// What a number is one of. A number of one kind can't stand where another kind is wanted, be their
/// bounds the same.
pub mod kind {
    /// Riders.
    #[derive(Clone, Copy, Debug, PartialEq, Eq)]
    pub struct Rider;

    /// Bicycles.
    #[derive(Clone, Copy, Debug, PartialEq, Eq)]
    pub struct Bicycle;

    /// Trucks.
    #[derive(Clone, Copy, Debug, PartialEq, Eq)]
    pub struct Truck;

    /// Docks of a station.
    #[derive(Clone, Copy, Debug, PartialEq, Eq)]
    pub struct Dock;

    /// Rentals.
    #[derive(Clone, Copy, Debug, PartialEq, Eq)]
    pub struct Rental;

    /// Orders.
    #[derive(Clone, Copy, Debug, PartialEq, Eq)]
    pub struct Order;

    /// Entries of the ledger.
    #[derive(Clone, Copy, Debug, PartialEq, Eq)]
    pub struct Entry;
}

/// The greatest number of a rider, a bicycle or a truck; the least is 1.
pub const GREATEST_NUMBER: u32 = 999_999;

/// A rider.
pub type RiderNumber = Within<1, GREATEST_NUMBER, kind::Rider>;

/// A bicycle.
pub type BicycleNumber = Within<1, GREATEST_NUMBER, kind::Bicycle>;

/// A truck.
pub type TruckNumber = Within<1, GREATEST_NUMBER, kind::Truck>;

/// A station has at most this many docks, which are numbered from 1.
pub const MOST_DOCKS: u32 = 500;

/// A dock of a station.
pub type DockNumber = Within<1, MOST_DOCKS, kind::Dock>;

/// How many docks a station has, at least 1.
pub type DockCount = Within<1, MOST_DOCKS>;

/// How many docks of a station are in some state, or how many bicycles stand in its docks.
pub type DockTotal = Within<0, MOST_DOCKS>;

/// The most bicycles that a truck holds or an order moves.
pub const MOST_CARRIED: u32 = 60;

/// How many bicycles a truck holds, at least 1.
pub type TruckCapacity = Within<1, MOST_CARRIED>;

/// How many bicycles an order moves, at least 1.
pub type OrderQuantity = Within<1, MOST_CARRIED>;

/// The most that is paid at once, in hundredths.
pub const GREATEST_PAYMENT: u32 = 1_000_000;

/// A top-up or a refund in hundredths, at least 1.
pub type Payment = Within<1, GREATEST_PAYMENT>;

/// The greatest number of a rental or an order; the least is 1.
pub const GREATEST_SERIAL: u32 = 100_000_000;

/// A rental.
pub type RentalNumber = Within<1, GREATEST_SERIAL, kind::Rental>;

/// An order.
pub type OrderNumber = Within<1, GREATEST_SERIAL, kind::Order>;

/// The greatest price of a plan, in hundredths.
pub const GREATEST_PRICE: u32 = 1_000_000;

/// The price of a plan in hundredths, which may be 0.
pub type Price = Within<0, GREATEST_PRICE>;

/// The last minute of a rental at which a segment starts or ends, and its longest interval in minutes.
pub const LAST_MINUTE: u32 = 100_000;

/// A minute of a rental, from 0 on, at which a segment starts, ends or charges again.
pub type SegmentMinute = Within<0, LAST_MINUTE>;

/// The greatest range of a vehicle, in metres.
pub const GREATEST_RANGE: u32 = 1_000_000;

/// The range of a vehicle in metres, which may be 0.
pub type MaxRange = Within<0, GREATEST_RANGE>;

/// The longest that a feed stays fresh, in seconds.
pub const LONGEST_TIME_TO_LIVE: u32 = 86_400;

/// How long a feed stays fresh, in seconds, which may be 0.
pub type TimeToLive = Within<0, LONGEST_TIME_TO_LIVE>;
