//! Money.

ghost use Rattle.std.specs.Prelude.{◌≡◌};
ghost use Rattle.bike_fixed.specs.Text.{cents_text};

use crate::digits::{push_decimal, push_sign, push_two};
use arrayvec::ArrayString;
use std::marker::Model;

/// The greatest fare in hundredths: the dearest plan's price, and eight segments at the greatest rate for each of the
/// 43,201 minutes that thirty days reach.
pub const GREATEST_FARE: i64 = 34_561_800_000;

/// Whole hundredths of a currency's unit (ISO 4217's minor unit where that has two decimals): any `i64`.
#[derive(Clone, Copy, Debug, PartialEq, Eq)]
pub struct Cents {
    hundredths: i64,
}

impl Model for Cents {
    ghost use Rattle.std.specs.Prelude.{ℤ};

    ghost Value = { ℤ };

    ghost view = { λ a. a.hundredths };

    ghost inverse = { λ z. record { hundredths = z } };
}

impl Cents {
    /// So many hundredths.
    pub fn new(hundredths: i64) -> Cents
        ensures { result ≡ hundredths }
    {
        Cents { hundredths }
    }

    /// The amount in hundredths.
    pub fn hundredths(&self) -> i64
        ensures { result ≡ self.now }
    {
        self.hundredths
    }

    /// The amount in units with exactly two decimals, as `3.50`, `0.00` and `-0.25`.
    #[tactic(auto, using(crate::proofs::Rooms::length_decimal_17))]
    pub fn text(&self) -> ArrayString<21>
        ensures { result.bytes ≡ cents_text self.now }
    {
        let mut out = ArrayString::new();
        push_sign(&mut out, self.hundredths);
        let size = self.hundredths.unsigned_abs();
        push_decimal(&mut out, size / 100, 17);
        out.push('.');
        push_two(&mut out, (size % 100) as u32);
        out
    }
}
