//! The bounds of the catalogue's records.

/// The most segments of a plan.
pub const MOST_SEGMENTS: usize = 8;

/// The greatest size of a segment's rate, of either sign, in hundredths.
pub const GREATEST_RATE: u32 = 100_000;

/// The greatest size of a latitude, of either sign, in microdegrees: 90 degrees.
pub const GREATEST_LATITUDE: u32 = 90_000_000;
