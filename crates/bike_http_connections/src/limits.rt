//! How much the connections may take together.

/// How many connections are open at once at most. Who comes then waits in the system's queue, and not at the cost of
/// its ten seconds.
pub const MOST_OPEN: usize = 1000;

/// How many events, connections and answers one turn takes at most, before it is the others' turn.
pub const TURN: usize = 64;

/// For how many milliseconds nobody is accepted where accepting failed.
pub const ACCEPTS_AGAIN: u64 = 100;
