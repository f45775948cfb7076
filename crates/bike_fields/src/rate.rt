//! Rates.

ghost use Rattle.std.specs.Prelude.{◌≡◌, pos, neg_ℤ, if◌then◌else◌, Some, None};
ghost use Rattle.bike_fixed.specs.Whole.{signed_of};
ghost use Rattle.bike_fields.specs.declared.limits.TheConstants.{GREATEST_RATE};
ghost use Rattle.bike_fields.specs.Values.{IsRate, is_rate};

use crate::limits::GREATEST_RATE;
use bike_fixed::read_signed;
use std::marker::Model;

/// What a segment charges each time, in hundredths of either sign.
#[derive(Clone, Copy, Debug, PartialEq, Eq)]
pub struct Rate {
    hundredths: i32,
}

impl Model for Rate {
    ghost use Rattle.std.specs.Prelude.{ℤ};
    ghost use Rattle.bike_fields.specs.Values.{IsRate};

    ghost Value = { ℤ };

    ghost view = { λ a. a.hundredths };

    ghost invariant = { λ a. IsRate a.hundredths };

    ghost inverse = { λ z. record { hundredths = z } };
}

impl Rate {
    /// So many hundredths, where their size is at most `GREATEST_RATE`.
    pub fn new(hundredths: i32) -> Option<Rate>
        ensures { result ≡ (if is_rate hundredths then Some hundredths else None) }
    {
        if hundredths.unsigned_abs() <= GREATEST_RATE {
            return Some(Rate { hundredths });
        }
        None
    }

    /// The rate whose decimal in hundredths the text is, with a `-` exactly below zero.
    pub fn read(text: &str) -> Option<Rate>
        ensures { result ≡ signed_of (neg_ℤ (pos GREATEST_RATE)) (pos GREATEST_RATE) text.now }
    {
        let hundredths = read_signed(text, -i64::from(GREATEST_RATE), i64::from(GREATEST_RATE))?;
        Some(Rate {
            hundredths: hundredths as i32,
        })
    }

    /// The rate in hundredths, and its bounds.
    pub fn hundredths(&self) -> i32
        ensures value { result ≡ self.now }
        ensures bounds { IsRate result }
    {
        self.hundredths
    }
}
