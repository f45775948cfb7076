//! Decimal texts of whole numbers.

ghost use Rattle.std.specs.Prelude.{◌≡◌, ℕ, ℤ, List, Some, ◌<◌, ◌≤◌, ◌≤ℤ◌, ◌^◌, IfSome, FitsSigned, decimal};
ghost use Rattle.std.specs.Fmt.{signed_decimal};
ghost use Rattle.std.specs.Int.{w64};
ghost use Rattle.bike_fixed.specs.Whole.{number_of, IsNumber, signed_of, IsSignedNumber};

use arrayvec::ArrayString;
use itoa::Buffer;

/// The number from `least` to `greatest` whose decimal the text is. A sign, a leading zero, a space or
/// any other character gives nothing, as does a number outside of the range.
pub fn read_whole(text: &str, least: u64, greatest: u64) -> Option<u64>
    ensures value { result ≡ number_of least greatest text.now }
    ensures bounds { IfSome result (λ n. (least ≤ n) × (n ≤ greatest)) }
{
    let Ok(number) = text.parse::<u64>() else {
        return None;
    };
    if number < least || number > greatest {
        return None;
    }
    let mut buffer = Buffer::new();
    if buffer.format(number) != text {
        return None;
    }
    Some(number)
}

/// The number from `least` to `greatest` whose decimal the text is, with a `-` exactly below zero. `-0`, a
/// plus sign, a leading zero or any other character gives nothing, as does a number outside of the range.
pub fn read_signed(text: &str, least: i64, greatest: i64) -> Option<i64>
    ensures value { result ≡ signed_of least greatest text.now }
    ensures bounds { IfSome result (λ z. (least ≤ℤ z) × (z ≤ℤ greatest)) }
{
    let Ok(number) = text.parse::<i64>() else {
        return None;
    };
    if number < least || number > greatest {
        return None;
    }
    let mut decimal = Buffer::new();
    if decimal.format(number) != text {
        return None;
    }
    Some(number)
}

/// The decimal of a number, with a `-` exactly below zero.
pub fn signed_text(number: i64) -> ArrayString<20>
    ensures { result.bytes ≡ signed_decimal number }
{
    let mut buffer = Buffer::new();
    let mut out = ArrayString::new();
    out.push_str(buffer.format(number));
    out
}

/// The laws of reading: a number is read from a text exactly where the text is its decimal and it lies in the range, so
/// its own text is read back.
pub fn number_laws()
    // Natural numbers: what is read is right, what is right is read, and a decimal is read back.
    ensures sound { (low high : ℕ) (text : List ℕ) (n : ℕ) → number_of low high text ≡ Some n
        → IsNumber low high text n }
    ensures full { (low high : ℕ) (text : List ℕ) (n : ℕ) → high < 2 ^ 64 → IsNumber low high text n
        → number_of low high text ≡ Some n }
    ensures read_back { (low high n : ℕ) → high < 2 ^ 64 → low ≤ n → n ≤ high
        → number_of low high (decimal n) ≡ Some n }
    // The same of integers.
    ensures signed_sound { (low high : ℤ) (text : List ℕ) (z : ℤ) → signed_of low high text ≡ Some z
        → IsSignedNumber low high text z }
    ensures signed_full { (low high : ℤ) (text : List ℕ) (z : ℤ) → FitsSigned w64 z
        → IsSignedNumber low high text z → signed_of low high text ≡ Some z }
    ensures signed_read_back { (low high z : ℤ) → FitsSigned w64 z → low ≤ℤ z → z ≤ℤ high
        → signed_of low high (signed_decimal z) ≡ Some z }
{}
