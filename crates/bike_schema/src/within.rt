//! Rows between two values: what a statement has in common that looks a row up, walks on from one, and counts them all.
//! The engine keeps the plans of few texts, so a table's look-up, walk and count are one.

ghost use Rattle.std.specs.Prelude.{◌≡◌, length, nat_le};

use sqlite::Row;

/// The value that stands above each number and each text, as SQL orders values: an empty BLOB.
pub const ABOVE_TEXTS: &[u8] = b"";

/// Whether there are at least so many rows.
pub fn are_at_least(rows: &[Row], most: u32) -> bool
    ensures { result ≡ nat_le most (length rows.now) }
{
    rows.len() >= most as usize
}
