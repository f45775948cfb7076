//! Descriptors that the process may have.

ghost use Rattle.std.specs.Prelude.{◌+◌, ◌≤◌, ◌↔◌, max, IsTrue};

use bike_http_connections::MOST_OPEN;
use libc::types::rlimit;
use std::{fs, io};

/// Where the system tells which descriptors are open, one entry for each.
const OPEN_DESCRIPTORS: &str = "/proc/self/fd";

/// How many are open at least, or where that isn't told: the standard streams, the database and its log, and some to
/// spare.
const LEAST_OPEN: u64 = 8;

/// How many the program opens beside its connections: the listener's two, what tells which sockets are ready, and those
/// that storage opens for a moment.
const FURTHER: u64 = 8;

/// How many descriptors are open; an error where that isn't told.
fn open_descriptors(rt: &HostRuntime) -> io::Result<u64> {
    let mut count: u64 = 0;
    for entry in fs::read_dir(rt, OPEN_DESCRIPTORS)? {
        entry?;
        count = count.saturating_add(1);
    }
    // That of the folder itself is closed again.
    Ok(count.saturating_sub(1))
}

/// How many descriptors the process may have at once, those that are open among them; none where that isn't told.
fn most_descriptors() -> Option<u64> {
    let mut limit = rlimit {
        rlim_cur: 0,
        rlim_max: 0,
    };
    if libc::getrlimit(libc::RLIMIT_NOFILE, &mut limit) == 0 {
        Some(limit.rlim_cur)
    } else {
        None
    }
}

/// Whether as many connections as are open at most fit within this limit, beside so many descriptors that are open, or
/// eight where that are fewer, and beside what the program still opens.
fn fits_all(limit: u64, opened: u64) -> bool
    ensures { IsTrue result ↔ max opened LEAST_OPEN + (FURTHER + MOST_OPEN) ≤ limit }
{
    limit.saturating_sub(opened.max(LEAST_OPEN)) >= FURTHER + MOST_OPEN as u64
}

/// Whether as many connections as are open at most fit beside what is open now and what the program still opens, within
/// the soft limit. Where `/proc/self/fd` can't be read, eight descriptors count as open.
pub fn has_descriptors(rt: &HostRuntime) -> bool {
    let open = open_descriptors(rt).unwrap_or(LEAST_OPEN);
    match most_descriptors() {
        Some(limit) => fits_all(limit, open),
        None => false,
    }
}
