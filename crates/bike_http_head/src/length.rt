//! How long the fields of a head say that the body is.

ghost use Rattle.std.specs.Prelude.{◌≡◌, ◌<◌, length, map, min, All, slice_index_or};
ghost use Rattle.std.specs.Str.{str_eq_ignore_ascii_case};
ghost use Rattle.httparse.specs.Spans.{header_bytes, IsHeaderWithin};
ghost use Rattle.bike_http_head.specs.Length.{body_length as body_length_of, size_of, told_after};

use httparse::spans::HeaderSpan;

/// The greatest length of a body in bytes.
pub const BODY_LENGTH: usize = 16_384;

/// How long the body of a request is.
#[derive(Clone, Copy, PartialEq, Eq)]
pub enum BodyLength {
    /// The fields don't tell: there is a Transfer-Encoding, there is more than one Content-Length, or one isn't
    /// one or more digits.
    Malformed,
    /// Longer than 16,384 bytes.
    TooLong,
    /// So many bytes.
    Of(usize),
}

/// The length that a Content-Length tells (RFC 9110, section 8.6), however many digits it has.
#[tactic(auto, unfolding(crate::specs::Length::size_of))]
fn size_of(text: &[u8]) -> BodyLength
    ensures { result ≡ size_of text.now }
{
    if text.is_empty() {
        return BodyLength::Malformed;
    }
    let mut size = 0;
    for byte in text {
        if !byte.is_ascii_digit() {
            return BodyLength::Malformed;
        }
        size = (size * 10 + usize::from(*byte - b'0')).min(BODY_LENGTH + 1);
    }
    if size <= BODY_LENGTH {
        BodyLength::Of(size)
    } else {
        BodyLength::TooLong
    }
}

/// Whether the two are one field's name: they compare without the case of ASCII letters.
fn is_named(name: &[u8], wanted: &[u8]) -> bool
    ensures { result ≡ str_eq_ignore_ascii_case name.now wanted.now }
{
    name.eq_ignore_ascii_case(wanted)
}

/// The name and the value of a field.
fn field_at<'b>(bytes: &'b [u8], fields: &[HeaderSpan], at: usize) -> (&'b [u8], &'b [u8])
    requires at { at < length fields.now }
    requires within { All (IsHeaderWithin (length bytes.now)) fields.now }
    ensures { (other : _)
        → (result.0.now, result.1.now) ≡ slice_index_or (map (header_bytes bytes.now) fields.now) at other }
{
    let field = fields[at];
    (field.name.of(bytes), field.value.of(bytes))
}

/// What the lengths tell after one field more, which is no Transfer-Encoding.
fn told_after(told: Option<BodyLength>, name: &[u8], value: &[u8]) -> Option<BodyLength>
    ensures { result ≡ told_after told (name.now, value.now) }
{
    if !is_named(name, b"content-length") {
        return told;
    }
    match told {
        None => Some(size_of(value)),
        Some(_) => Some(BodyLength::Malformed),
    }
}

/// How long the fields say that the body is.
pub(crate) fn body_length(bytes: &[u8], fields: &[HeaderSpan]) -> BodyLength
    requires { All (IsHeaderWithin (length bytes.now)) fields.now }
    ensures { result ≡ body_length_of (map (header_bytes bytes.now) fields.now) }
{
    let mut told = None;
    for at in 0..fields.len() {
        let (name, value) = field_at(bytes, fields, at);
        if is_named(name, b"transfer-encoding") {
            return BodyLength::Malformed;
        }
        told = told_after(told, name, value);
    }
    told.unwrap_or(BodyLength::Of(0))
}
