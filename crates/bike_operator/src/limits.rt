//! The limit rule: how many records there may be. What would be one more is refused.

/// There are at most this many pricing plans.
pub const MOST_PLANS: u32 = 256;

/// There are at most this many vehicle types.
pub const MOST_TYPES: u32 = 32;

/// There are at most this many regions.
pub const MOST_REGIONS: u32 = 256;

/// A text has at most this many further languages.
pub const MOST_FURTHER_NAMES: u32 = 3;

/// There are at most this many stations.
pub const MOST_STATIONS: u32 = 5_000;

/// There are at most this many bicycles, retired ones included.
pub const MOST_BIKES: u32 = 100_000;

/// There are at most this many trucks.
pub const MOST_TRUCKS: u32 = 1_000;

/// There are at most this many riders.
pub const MOST_RIDERS: u32 = 500_000;

/// There are at most this many orders, closed ones included.
pub const MOST_ORDERS: u32 = 10_000_000;

/// There are at most this many entries and open rentals together: an open rental is counted because its end writes
/// an entry. Each rental is open or has an entry, so there are at most as many rentals too.
pub const MOST_ENTRIES: u32 = 100_000_000;
