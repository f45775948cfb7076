//! The key by which a bad row is named.

use bike_fields::Ident;
use sqlite::Row;

/// The key of a row, or of one that is missing.
#[derive(Debug, Drop)]
pub enum BadKey {
    /// Of a table whose key is a number.
    Number(i64),
    /// As many first columns of this line.
    Columns(Row, usize),
    /// An identifier.
    Named(Ident),
    /// Two identifiers.
    Paired(Ident, Ident),
}
