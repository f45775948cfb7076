//! Moments: whole seconds of Unix time.

ghost use Rattle.std.specs.Prelude.{◌≡◌, ◌≤◌, ◌+◌, ◌*◌, ◌++◌, ℕ, pos, Some, None, nat_le, if◌then◌else◌, max};
ghost use Rattle.arrayvec.specs.ArrayString.{array_string_len};
ghost use Rattle.bike_fixed.specs.Calendar.{civil_date};
ghost use Rattle.bike_fixed.specs.Text.{clock_text, moment_text};
ghost use Rattle.bike_fixed.specs.Whole.{number_of, last_moment};

use crate::digits::{push_four, push_two};
use crate::whole::read_whole;
use arrayvec::ArrayString;
use jiff_core::civil::Date;
use std::marker::Model;

/// The last moment: 9999-12-31T23:59:59Z.
pub const LAST_MOMENT: u64 = 253_402_300_799;

/// The days from -9999-01-01 to 1970-01-01.
const DAYS_BEFORE_1970: u32 = 4_371_587;

/// Whole seconds since 1970-01-01T00:00:00Z without leap seconds (POSIX's seconds since the Epoch), from 0
/// to `LAST_MOMENT`, the last second of the year 9999. Moments are ordered by time.
#[derive(Clone, Copy, Debug, PartialEq, Eq, PartialOrd, Ord)]
pub struct Moment {
    seconds: u64,
}

impl Model for Moment {
    ghost use Rattle.std.specs.Prelude.{ℕ, ◌≤◌};
    ghost use Rattle.bike_fixed.specs.Whole.{last_moment};

    ghost Value = { ℕ };

    ghost view = { λ a. a.seconds };

    ghost invariant = { λ a. a.seconds ≤ last_moment };

    ghost inverse = { λ n. record { seconds = n } };
}

/// The civil date so many days after 1970-01-01.
fn date_of(day: u32) -> Date
    requires { 86400 * day ≤ last_moment }
    ensures year { result.year ≡ pos (civil_date day).0 }
    ensures month { result.month ≡ (civil_date day).1 }
    ensures day { result.day ≡ (civil_date day).2 }
{
    Date::from_days_since_min(DAYS_BEFORE_1970 + day)
}

impl Moment {
    /// The moment so many seconds after 1970-01-01T00:00:00Z, where it is at most `LAST_MOMENT`.
    pub fn new(seconds: u64) -> Option<Moment>
        ensures { result ≡ (if nat_le seconds last_moment then Some seconds else None) }
    {
        if seconds <= LAST_MOMENT {
            return Some(Moment { seconds });
        }
        None
    }

    /// The moment whose seconds' decimal the text is: no sign, no leading zero, no space.
    pub fn read(text: &str) -> Option<Moment>
        ensures { result ≡ number_of 0 last_moment text.now }
    {
        let seconds = read_whole(text, 0, LAST_MOMENT)?;
        Some(Moment { seconds })
    }

    /// The seconds since 1970-01-01T00:00:00Z, and their bound.
    pub fn seconds(&self) -> u64
        ensures value { result ≡ self.now }
        ensures high { result ≤ last_moment }
    {
        self.seconds
    }

    /// Tells the bound of a moment to a proof.
    pub fn bounds(&self)
        ensures { self.now ≤ last_moment }
    {
        let _seconds = self.seconds;
    }

    /// The later of two moments, and the bound of the first.
    pub fn later(&self, other: &Moment) -> Moment
        ensures value { result ≡ max self.now other.now }
        ensures bound { self.now ≤ last_moment }
    {
        if self.seconds < other.seconds {
            return *other;
        }
        *self
    }

    /// The moment in UTC, as `2024-02-29T23:59:59Z` (RFC 3339, section 5.6).
    #[tactic(auto, unfolding(crate::specs::Text::moment_text))]
    pub fn text(&self) -> ArrayString<20>
        ensures { result.bytes ≡ moment_text self.now }
    {
        let date = date_of((self.seconds / 86_400) as u32);
        let second = (self.seconds % 86_400) as u32;
        let mut out = ArrayString::new();
        push_four(&mut out, u32::from(date.year.unsigned_abs()));
        out.push('-');
        push_two(&mut out, u32::from(date.month));
        out.push('-');
        push_two(&mut out, u32::from(date.day));
        out.push('T');
        push_two(&mut out, second / 3600);
        out.push(':');
        push_two(&mut out, second / 60 % 60);
        out.push(':');
        push_two(&mut out, second % 60);
        out.push('Z');
        out
    }
}
