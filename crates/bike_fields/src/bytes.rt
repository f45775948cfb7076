//! The sets of bytes that texts are made of.

ghost use Rattle.std.specs.Prelude.{◌≡◌};
ghost use Rattle.std.specs.List.{list_all};
ghost use Rattle.bike_fields.specs.Bytes.{has_length, is_ident_byte, is_key_byte, is_language_byte, is_name_byte};
ghost use Rattle.bike_fields.specs.Bytes.{is_printable, is_upper};

/// Whether the text has from `least` to `most` bytes.
pub fn has_length(text: &str, least: usize, most: usize) -> bool
    ensures { result ≡ has_length least most text.now }
{
    least <= text.len() && text.len() <= most
}

/// a-z 0-9 _ -
fn is_ident_byte(b: u8) -> bool
    ensures { result ≡ is_ident_byte b }
{
    b.is_ascii_lowercase() || b.is_ascii_digit() || b == b'_' || b == b'-'
}

/// Whether all bytes are those of identifiers: a to z, 0 to 9, `_` and `-`.
pub fn are_ident_bytes(text: &[u8]) -> bool
    ensures { result ≡ list_all is_ident_byte text.now }
{
    text.iter().all(|b| is_ident_byte(*b))
}

/// A-Z a-z 0-9 _ -
fn is_key_byte(b: u8) -> bool
    ensures { result ≡ is_key_byte b }
{
    b.is_ascii_uppercase() || b.is_ascii_lowercase() || b.is_ascii_digit() || b == b'_' || b == b'-'
}

/// Whether all bytes are those of request keys: A to Z, a to z, 0 to 9, `_` and `-`.
pub fn are_key_bytes(text: &[u8]) -> bool
    ensures { result ≡ list_all is_key_byte text.now }
{
    text.iter().all(|b| is_key_byte(*b))
}

/// A-Z a-z 0-9 -
fn is_language_byte(b: u8) -> bool
    ensures { result ≡ is_language_byte b }
{
    b.is_ascii_uppercase() || b.is_ascii_lowercase() || b.is_ascii_digit() || b == b'-'
}

/// Whether all bytes are those of language tags: A to Z, a to z, 0 to 9 and `-`.
pub fn are_language_bytes(text: &[u8]) -> bool
    ensures { result ≡ list_all is_language_byte text.now }
{
    text.iter().all(|b| is_language_byte(*b))
}

/// Whether all bytes are A to Z.
pub fn are_uppercase(text: &[u8]) -> bool
    ensures { result ≡ list_all is_upper text.now }
{
    text.iter().all(|b| b.is_ascii_uppercase())
}

/// Whether all bytes are printable ASCII, the space among them.
pub fn are_printable(text: &[u8]) -> bool
    ensures { result ≡ list_all is_printable text.now }
{
    text.iter().all(|b| b' ' <= *b && *b <= b'~')
}

/// Whether no byte is 0, which names have not.
pub fn are_name_bytes(text: &[u8]) -> bool
    ensures { result ≡ list_all is_name_byte text.now }
{
    text.iter().all(|b| *b != 0)
}
