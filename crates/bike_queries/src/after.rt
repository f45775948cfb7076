//! Where a walk in byte order of identifiers goes on.

ghost use Rattle.std.specs.Prelude.{◌≡◌, option_map};
ghost use Rattle.bike_queries.specs.After.{start_after};

use arrayvec::ArrayString;
use bike_fields::{Ident, LONGEST_IDENT};

/// Room for an identifier and the byte behind it.
const START_LENGTH: usize = LONGEST_IDENT + 1;

/// The text from which the walk goes on: the identifier with a byte 0 behind it, which is the first text after it, or
/// at first the empty text. So one statement serves both.
pub(crate) fn start_of(after: Option<&Ident>) -> ArrayString<START_LENGTH>
    ensures { result.bytes ≡ start_after (option_map (λ id. id.now) after.entry) }
{
    let mut start = ArrayString::new();
    if let Some(id) = after {
        start.push_str(id.as_str());
        start.push('\0');
    }
    start
}
