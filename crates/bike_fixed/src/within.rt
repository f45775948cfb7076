//! Whole numbers of a range.

ghost use Rattle.std.specs.Prelude.{◌≡◌, ◌≤◌, ℕ, Some, None, nat_le, ◌&&◌, if◌then◌else◌};
ghost use Rattle.bike_fixed.specs.Whole.{number_of};

use crate::whole::read_whole;
use std::marker::{Model, PhantomData};

/// A whole number from `LO` to `HI`. The kind tells numbers of different things apart, which have the same bounds.
#[derive(Clone, Copy, Debug, PartialEq, Eq)]
pub struct Within<const LO: u32, const HI: u32, K = ()> {
    number: u32,
    kind: PhantomData<K>,
}

impl<const LO: u32, const HI: u32, K> Model for Within<LO, HI, K> {
    ghost Value = { ℕ };

    ghost view = { λ a. a.number };

    ghost invariant = { λ a. (LO ≤ a.number) × (a.number ≤ HI) };

    ghost inverse = { λ n. record { number = n; kind = record {} } };
}

impl<const LO: u32, const HI: u32, K> Within<LO, HI, K> {
    /// The number, where it lies from `LO` to `HI`.
    pub fn new(number: u32) -> Option<Within<LO, HI, K>>
        ensures { result ≡ (if nat_le LO number && nat_le number HI then Some number else None) }
    {
        if LO <= number && number <= HI {
            return Some(Within {
                number,
                kind: PhantomData,
            });
        }
        None
    }

    /// The number from `LO` to `HI` whose decimal the text is: no sign, no leading zero, no space.
    pub fn read(text: &str) -> Option<Within<LO, HI, K>>
        ensures { result ≡ number_of LO HI text.now }
    {
        let number = read_whole(text, u64::from(LO), u64::from(HI))?;
        Some(Within {
            number: number as u32,
            kind: PhantomData,
        })
    }

    /// The number, and its bounds.
    pub fn get(&self) -> u32
        ensures value { result ≡ self.now }
        ensures low { LO ≤ result }
        ensures high { result ≤ HI }
    {
        self.number
    }
}
