//! How much one connection may take.

/// How many seconds an exchange takes at most, from its acceptance to the last byte of its answer, whatever its client
/// does.
pub(crate) const PATIENCE: u64 = 10;

/// How many bytes are read at once.
pub const PIECE: usize = 4096;

/// How many reads or writes a connection has in one turn.
pub(crate) const MOST_CALLS: u32 = 16;
