//! The clock.

use bike_fixed::Moment;
use std::time::SystemTime;

/// The clock's moment in whole seconds; none where the clock gives none, or one beyond the last that there is.
pub fn clock_moment(rt: &HostRuntime) -> Option<Moment> {
    let Ok(now) = SystemTime::now(rt) else {
        return None;
    };
    let Ok(since) = now.duration_since(SystemTime::UNIX_EPOCH) else {
        return None;
    };
    Moment::new(since.as_secs())
}
