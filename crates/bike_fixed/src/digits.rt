//! Digits written into a fixed buffer.

ghost use Rattle.std.specs.Prelude.{◌≡◌, ◌<◌, ◌≤◌, ◌+◌, ◌/◌, ◌%◌, ◌++◌, ◌∷◌, [], List, ℕ, decimal, length};
ghost use Rattle.arrayvec.specs.ArrayString.{array_string_len};
ghost use Rattle.bike_fixed.specs.Text.{digit_at, two_digits, four_digits, six_digits, sign_text};

use arrayvec::ArrayString;
use itoa::Buffer;

fn push_digit<const N: usize>(out: &mut ArrayString<N>, power: u32, n: u32)
    requires room { array_string_len out.old < N }
    requires positive { 0 < power }
    ensures bytes { out.new.bytes ≡ out.old.bytes ++ digit_at power n ∷ [] }
    ensures len { array_string_len out.new ≡ array_string_len out.old + 1 }
{
    let digit = b'0' + (n / power % 10) as u8;
    out.push(char::from(digit));
}

/// The two lowest digits.
pub fn push_two<const N: usize>(out: &mut ArrayString<N>, n: u32)
    requires room { array_string_len out.old + 2 ≤ N }
    ensures bytes { out.new.bytes ≡ out.old.bytes ++ two_digits n }
    ensures len { array_string_len out.new ≡ array_string_len out.old + 2 }
{
    push_digit(out, 10, n);
    push_digit(out, 1, n);
}

/// The four lowest digits.
pub fn push_four<const N: usize>(out: &mut ArrayString<N>, n: u32)
    requires room { array_string_len out.old + 4 ≤ N }
    ensures bytes { out.new.bytes ≡ out.old.bytes ++ four_digits n }
    ensures len { array_string_len out.new ≡ array_string_len out.old + 4 }
{
    push_digit(out, 1000, n);
    push_digit(out, 100, n);
    push_digit(out, 10, n);
    push_digit(out, 1, n);
}

/// The six lowest digits.
pub fn push_six<const N: usize>(out: &mut ArrayString<N>, n: u32)
    requires room { array_string_len out.old + 6 ≤ N }
    ensures bytes { out.new.bytes ≡ out.old.bytes ++ six_digits n }
    ensures len { array_string_len out.new ≡ array_string_len out.old + 6 }
{
    push_digit(out, 100_000, n);
    push_digit(out, 10_000, n);
    push_digit(out, 1000, n);
    push_digit(out, 100, n);
    push_digit(out, 10, n);
    push_digit(out, 1, n);
}

/// The decimal of `n`, of at most `most` digits.
pub fn push_decimal<const N: usize>(out: &mut ArrayString<N>, n: u64, most: usize)
    requires few { length (decimal n) ≤ most }
    requires room { array_string_len out.old + most ≤ N }
    ensures bytes { out.new.bytes ≡ out.old.bytes ++ decimal n }
    ensures len { array_string_len out.new ≤ array_string_len out.old + most }
{
    let mut buffer = Buffer::new();
    out.push_str(buffer.format(n));
}

/// A minus sign below zero.
pub fn push_sign<const N: usize>(out: &mut ArrayString<N>, z: i64)
    requires room { array_string_len out.old + 1 ≤ N }
    ensures bytes { out.new.bytes ≡ out.old.bytes ++ sign_text z }
    ensures len { array_string_len out.new ≤ array_string_len out.old + 1 }
{
    if z < 0 {
        out.push('-');
    }
}
