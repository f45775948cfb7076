//! When connections are given up, and from when on some are accepted.

ghost use Rattle.std.specs.Prelude.{◌≡◌, ◌≤◌, ◌+◌, ◌-◌, ◌*◌, ◌↔◌, min, IsTrue, None, Some, if◌then◌else◌};
ghost use Rattle.std.specs.Duration.{as_nanos, max_nanos};
ghost use Rattle.bike_http_connections.specs.Turns.{nanos, sooner_of, time_until, HasCome};

use crate::limits::ACCEPTS_AGAIN;
use std::time::Duration;

/// The sooner of two moments, of which the first may be never.
pub(crate) fn sooner(soonest: Option<Duration>, end: Duration) -> Option<Duration>
    ensures { nanos result ≡ sooner_of (nanos soonest) (Some (as_nanos end)) }
{
    match soonest {
        Some(other) if other < end => Some(other),
        _ => Some(end),
    }
}

/// The moments at which connections are given up: the soonest of them, if there is one.
#[derive(Clone, Copy)]
pub(crate) struct Deadlines {
    soonest: Option<Duration>,
}

impl Deadlines {
    /// There is none.
    pub(crate) fn none() -> Deadlines
        ensures { result.soonest ≡ None }
    {
        Deadlines { soonest: None }
    }

    /// One more is given up at this moment.
    pub(crate) fn note(&mut self, end: Duration)
        ensures { nanos self.new.soonest ≡ sooner_of (nanos self.old.soonest) (Some (as_nanos end)) }
    {
        self.soonest = sooner(self.soonest, end);
    }

    /// Whether the time of one is over.
    pub(crate) fn have_come(&self, now: Duration) -> bool
        ensures { IsTrue result ↔ HasCome (nanos self.now.soonest) (as_nanos now) }
    {
        match self.soonest {
            Some(soonest) => soonest.as_nanos() <= now.as_nanos(),
            None => false,
        }
    }

    /// How long it is until the soonest, which may be for ever.
    pub(crate) fn patience(&self, now: Duration) -> Option<Duration>
        ensures { nanos result ≡ time_until (nanos self.now.soonest) (as_nanos now) }
    {
        let soonest = self.soonest?;
        Some(soonest.saturating_sub(now))
    }
}

/// A pause in which nobody is accepted, until this moment.
#[derive(Clone, Copy)]
pub(crate) struct Pause {
    end: Duration,
}

impl Pause {
    /// There is none.
    pub(crate) fn none() -> Pause
        ensures { as_nanos result.end ≡ 0 }
    {
        Pause {
            end: Duration::ZERO,
        }
    }

    /// Begins one now, since accepting failed.
    pub(crate) fn begin(&mut self, now: Duration)
        ensures { as_nanos self.new.end ≡ min (as_nanos now + ACCEPTS_AGAIN * 1_000_000) max_nanos }
    {
        self.end = now.saturating_add(Duration::from_millis(ACCEPTS_AGAIN));
    }

    /// Whether it is over.
    pub(crate) fn is_over(&self, now: Duration) -> bool
        ensures { IsTrue result ↔ as_nanos self.now.end ≤ as_nanos now }
    {
        self.end.as_nanos() <= now.as_nanos()
    }

    /// How long it still is.
    pub(crate) fn left(&self, now: Duration) -> Duration
        ensures { as_nanos result ≡ as_nanos self.now.end - as_nanos now }
    {
        self.end.saturating_sub(now)
    }

    /// How long it is until one may be accepted: for ever where there is no place for one.
    pub(crate) fn accepts_in(&self, has_place: bool, now: Duration) -> Option<Duration>
        ensures { nanos result
            ≡ (if has_place then Some (as_nanos self.now.end - as_nanos now) else None) }
    {
        if has_place {
            Some(self.left(now))
        } else {
            None
        }
    }
}
