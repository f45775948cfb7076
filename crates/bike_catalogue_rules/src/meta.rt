//! The row of `meta`, which holds the sums of what was archived.

ghost use Rattle.std.specs.Prelude.{◌≡◌};
ghost use Rattle.bike_sql.specs.Calls.{ReadsWhere};
ghost use Rattle.bike_book.specs.Tables.{Meta};
ghost use Rattle.bike_schema.specs.Tables.{IsOurs};
ghost use Rattle.bike_judges.specs.Verdicts.{JudgesTable};
ghost use Rattle.bike_catalogue_rules.specs.OneRow.{is_meta, first_meta};

use crate::key::number_key;
use bike_book::NEWEST;
use bike_judges::{BadKey, Judge, Query, find_archived, is_sum_of, judge_lines, least};
use bike_readings::{Part, read_meta};
use bike_schema::StatementFault;
use sqlite::{Alter, Connection, Row};

/// Whether a line is a row of `meta` of the newest version, with sums that so many archived entries can come to.
fn is_meta(archived: u32, line: &Row) -> bool
    ensures { result ≡ is_meta archived line.now }
{
    match read_meta(Part::whole(line)) {
        Some(meta) => {
            meta.version.get() == NEWEST
                && is_sum_of(archived, meta.cash)
                && is_sum_of(archived, meta.revenue)
        }
        None => false,
    }
}

/// Finds the first row of `meta` that isn't the one that has to be there, or that this is missing.
#[derive(Drop)]
struct MetaJudge {
    /// How many entries were archived.
    archived: u32,
    /// Whether the one row was there.
    seen: bool,
}

impl Judge for MetaJudge {
    ghost says = { λ j lines verdict. first_meta (is_meta j.archived) j.seen lines ≡ verdict };

    fn take(&mut self, line: &Row) -> Result<Option<BadKey>, StatementFault> {
        if self.seen {
            return Ok(Some(number_key(line)?));
        }
        if is_meta(self.archived, line) {
            self.seen = true;
            return Ok(None);
        }
        Ok(least(Some(number_key(line)?), Some(BadKey::Number(1))))
    }

    fn end(self) -> Option<BadKey> {
        if self.seen {
            return None;
        }
        Some(BadKey::Number(1))
    }
}

/// The first bad key of `meta`: its one row is of the newest version, and its cash and revenue are what so many
/// archived entries can come to. The database stays as it is. `StoreFailed` where the store fails or was shut;
/// `NoMemory` where memory is refused.
pub fn judge_meta<S: Alter>(conn: &mut Connection<S>) -> Result<Option<BadKey>, StatementFault>
    ensures { ReadsWhere S.Store IsOurs conn.old conn.new result (JudgesTable Meta) }
{
    let books = find_archived(conn)?;
    let judge = MetaJudge {
        archived: books.entries,
        seen: false,
    };
    judge_lines(conn, Query::Meta, judge)
}
