//! Coordinates.

ghost use Rattle.std.specs.Prelude.{◌≡◌, ◌<◌, ◌≤◌, ◌^◌, ℕ, ℤ, List, length, IfSome, Some};
ghost use Rattle.std.specs.List.{list_all};
ghost use Rattle.std.specs.Char.{is_ascii_digit};
ghost use Rattle.bike_fixed.specs.Coordinate.{IsMicro, IsCoordinate, digits_of, are_digits, size_of, within};
ghost use Rattle.bike_fixed.specs.Coordinate.{micro_within, micro_of};
ghost use Rattle.bike_fixed.specs.Text.{micro_text};

use crate::digits::{push_decimal, push_sign, push_six};
use arrayvec::ArrayString;
use std::marker::Model;

/// The greatest size of a coordinate, of either sign, in microdegrees: 180 degrees.
pub const GREATEST_COORDINATE: u32 = 180_000_000;

/// A latitude or longitude in whole microdegrees, of a size of at most `GREATEST_COORDINATE`.
#[derive(Clone, Copy, Debug, PartialEq, Eq)]
pub struct Micro {
    microdegrees: i32,
}

impl Model for Micro {
    ghost use Rattle.std.specs.Prelude.{ℤ};
    ghost use Rattle.bike_fixed.specs.Coordinate.{IsMicro};

    ghost Value = { ℤ };

    ghost view = { λ a. a.microdegrees };

    ghost invariant = { λ a. IsMicro a.microdegrees };

    ghost inverse = { λ z. record { microdegrees = z } };
}

fn are_digits(text: &[u8]) -> bool
    ensures { result ≡ list_all is_ascii_digit text.now }
{
    text.iter().all(|b| b.is_ascii_digit())
}

fn are_few_digits(text: &str, most: usize) -> bool
    ensures { result ≡ are_digits most text.now }
{
    1 <= text.len() && text.len() <= most && are_digits(text.as_bytes())
}

/// The number of one to `most` digits.
fn digits(text: &str, most: usize) -> Option<u32>
    requires { most ≤ 6 }
    ensures value { result ≡ digits_of most text.now }
    ensures bound { IfSome result (λ n. (n < 10 ^ length text.now) × (1 ≤ length text.now) × (length text.now ≤ most)) }
{
    if !are_few_digits(text, most) {
        return None;
    }
    text.parse::<u32>().ok()
}

/// The microdegrees of degrees without a sign.
#[tactic(auto, unfolding(crate::specs::Coordinate::size_of))]
fn size(text: &str) -> Option<u32>
    ensures { result ≡ size_of text.now }
{
    match text.split_once('.') {
        None => {
            let degrees = digits(text, 3)?;
            Some(degrees * 1_000_000)
        }
        Some((whole, part)) => {
            let degrees = digits(whole, 3)?;
            let decimals = digits(part, 6)?;
            let places = 6 - part.len() as u32;
            Some(degrees * 1_000_000 + decimals * 10u32.pow(places))
        }
    }
}

fn within(minus: bool, text: &str) -> Option<Micro>
    ensures { result ≡ within minus text.now }
{
    let size = size(text)?;
    if size > GREATEST_COORDINATE {
        return None;
    }
    let microdegrees = if minus { -(size as i32) } else { size as i32 };
    Some(Micro { microdegrees })
}

impl Micro {
    /// So many microdegrees, where their size is at most `GREATEST_COORDINATE`.
    pub fn new(microdegrees: i32) -> Option<Micro>
        ensures { result ≡ micro_within microdegrees }
    {
        if microdegrees.unsigned_abs() <= GREATEST_COORDINATE {
            return Some(Micro { microdegrees });
        }
        None
    }

    /// The coordinate that the text spells in degrees: an optional `-`, one to three digits, optionally a point and
    /// one to six digits, from -180 to 180. Any other text gives nothing.
    pub fn read(text: &str) -> Option<Micro>
        ensures { result ≡ micro_of text.now }
    {
        match text.strip_prefix('-') {
            Some(rest) => within(true, rest),
            None => within(false, text),
        }
    }

    /// The coordinate in microdegrees, and its bounds.
    pub fn microdegrees(&self) -> i32
        ensures value { result ≡ self.now }
        ensures bounds { IsMicro result }
    {
        self.microdegrees
    }

    /// The coordinate in degrees with exactly six decimals, as `-0.000001`; zero has no sign.
    #[tactic(auto, using(crate::proofs::Rooms::length_decimal_4))]
    pub fn text(&self) -> ArrayString<12>
        ensures text { result.bytes ≡ micro_text self.now }
    {
        let mut out = ArrayString::new();
        push_sign(&mut out, i64::from(self.microdegrees));
        let size = self.microdegrees.unsigned_abs();
        push_decimal(&mut out, u64::from(size / 1_000_000), 4);
        out.push('.');
        push_six(&mut out, size % 1_000_000);
        out
    }
}

/// The laws of coordinates' texts: one is read exactly where it is spelled, and its own text is a spelling, so it
/// is read back.
pub fn coordinate_laws()
    ensures sound { (text : List ℕ) (z : ℤ) → micro_of text ≡ Some z → IsCoordinate text z × IsMicro z }
    ensures full { (text : List ℕ) (z : ℤ) → IsCoordinate text z → IsMicro z → micro_of text ≡ Some z }
    ensures spelled { (z : ℤ) → IsMicro z → IsCoordinate (micro_text z) z }
    ensures read_back { (z : ℤ) → IsMicro z → micro_of (micro_text z) ≡ Some z }
{}
