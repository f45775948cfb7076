//! How many rentals there are, and how many of them are open.

ghost use Rattle.std.specs.Prelude.{◌≡◌, length};
ghost use Rattle.bike_operator.specs.Counts.{open_rentals};
ghost use Rattle.bike_sql.specs.Calls.{ReadsWhere};
ghost use Rattle.bike_readings.specs.ReadOff.{operator_of};
ghost use Rattle.bike_schema.specs.Tables.{IsOurs, tables_of};
ghost use Rattle.bike_ledger_rules.specs.Entries.{one_rental_more, IsRentalCount};

use bike_judges::{LineFold, Query, fold_lines};
use bike_readings::{Part, read_rental};
use bike_schema::StatementFault;
use sqlite::{Alter, Connection, Row};

/// The rentals so far, whose places behind those that were archived are 1, 2, .. with no gap.
#[derive(Debug, Drop)]
pub(crate) struct RentalCount {
    /// The place of the next one.
    pub(crate) next: usize,
    /// How many are open.
    pub(crate) riding: u64,
}

impl LineFold for RentalCount {
    ghost after = { one_rental_more };

    fn add(&mut self, line: &Row) -> Result<(), StatementFault> {
        let is_open = match read_rental(Part::whole(line)) {
            Some(rental) => rental.closing.is_none(),
            None => false,
        };
        let next = self.next.checked_add(1);
        let riding = self.riding.checked_add(u64::from(is_open));
        let (Some(next), Some(riding)) = (next, riding) else {
            return Err(StatementFault::StoreFailed);
        };
        self.next = next;
        self.riding = riding;
        Ok(())
    }
}

/// How many rentals there are, behind those that were archived. `NoMemory` where memory is refused, `StoreFailed` where
/// the database fails.
pub(crate) fn count_rentals<S: Alter>(
    conn: &mut Connection<S>,
) -> Result<RentalCount, StatementFault>
    ensures { ReadsWhere S.Store IsOurs conn.old conn.new result (λ db n. IsRentalCount (tables_of db) n) }
{
    fold_lines(conn, Query::Rentals, RentalCount { next: 1, riding: 0 })
}
