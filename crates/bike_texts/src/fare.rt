//! The fare of a rental.

ghost use Rattle.std.specs.Prelude.{◌≡◌, ◌≤ℤ◌, ◌&&◌, pos, int_le, if◌then◌else◌, Some, None};

use bike_fixed::GREATEST_FARE;
use std::marker::Model;

/// What a rental costs, 0 to `GREATEST_FARE` hundredths.
#[derive(Clone, Copy, Debug, PartialEq, Eq)]
pub struct Fare {
    hundredths: i64,
}

impl Model for Fare {
    ghost use Rattle.std.specs.Prelude.{ℤ, pos, ◌≤ℤ◌};
    ghost use Rattle.bike_fixed.specs.declared.cents.TheConstants.{GREATEST_FARE};

    ghost Value = { ℤ };

    ghost view = { λ a. a.hundredths };

    ghost invariant = { λ a. (pos 0 ≤ℤ a.hundredths) × (a.hundredths ≤ℤ GREATEST_FARE) };

    ghost inverse = { λ z. record { hundredths = z } };
}

impl Fare {
    /// The fare of so many hundredths, where they are 0 to `GREATEST_FARE`.
    pub fn new(hundredths: i64) -> Option<Fare>
        ensures { result
            ≡ (if int_le (pos 0) hundredths && int_le hundredths GREATEST_FARE then Some hundredths else None) }
    {
        if hundredths < 0 || hundredths > GREATEST_FARE {
            return None;
        }
        Some(Fare { hundredths })
    }

    /// The fare of hundredths that the caller knows to be 0 to `GREATEST_FARE`.
    pub fn of(hundredths: i64) -> Fare
        requires low { pos 0 ≤ℤ hundredths }
        requires high { hundredths ≤ℤ GREATEST_FARE }
        ensures { result ≡ hundredths }
    {
        Fare { hundredths }
    }

    /// The hundredths, and their bounds.
    pub fn hundredths(&self) -> i64
        ensures value { result ≡ self.now }
        ensures low { pos 0 ≤ℤ result }
        ensures high { result ≤ℤ GREATEST_FARE }
    {
        self.hundredths
    }
}
