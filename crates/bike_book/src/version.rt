//! The version of the schema.

/// The newest version of the schema, which new databases have.
pub const NEWEST: u32 = 4;
