//! A part of a row.

ghost use Rattle.std.specs.Prelude.{◌≡◌, length, take, drop};
ghost use Rattle.sqlite_value.specs.Order.{column};

use sqlite::Row;
use std::marker::Model;

/// So many columns of a row from one on, as many as the row has of them: a stored row in a line that holds several.
#[derive(Drop)]
pub struct Part<'a> {
    row: &'a Row,
    first: usize,
    width: usize,
}

impl<'a> Model for Part<'a> {
    ghost use Rattle.std.specs.Prelude.{take, drop};
    ghost use Rattle.sqlite_value.specs.Order.{Row};

    ghost Value = { Row };

    ghost view = { λ p. take p.width (drop p.first p.row.now) };
}

/// Where a column of a part stands in its row: past the end where the part ends before it.
fn place(row: &Row, first: usize, width: usize, at: usize) -> usize
    ensures { column row.now result ≡ column (take width (drop first row.now)) at }
{
    let count = row.column_count();
    if at < width && at < count.saturating_sub(first) {
        first + at
    } else {
        count
    }
}

impl<'a> Part<'a> {
    /// `width` columns of the row from the column `first` on.
    pub fn of(row: &'a Row, first: usize, width: usize) -> Part<'a>
        ensures { result ≡ take width (drop first row.now) }
    {
        Part { row, first, width }
    }

    /// All columns of the row.
    pub fn whole(row: &'a Row) -> Part<'a>
        ensures { result ≡ row.now }
    {
        let width = row.column_count();
        Part {
            row,
            first: 0,
            width,
        }
    }

    /// How many columns it has.
    pub fn column_count(&self) -> usize
        ensures { result ≡ length self.now }
    {
        let left = self.row.column_count().saturating_sub(self.first);
        self.width.min(left)
    }

    /// The row with the place in it of this column; past the end of the part it is one past the end of the row.
    pub(crate) fn column(&self, at: usize) -> (&'a Row, usize)
        ensures { column result.0.now result.1 ≡ column self.now at }
    {
        let at = place(self.row, self.first, self.width, at);
        (self.row, at)
    }
}
