//! The statements on `riders_4`.

ghost use Rattle.bike_accepted.specs.declared.change.Change.TheVariants as change;
ghost use Rattle.bike_book.specs.declared.row_change.RowChange.TheVariants as row;
ghost use Rattle.bike_book.specs.Writes.{record_write, write_of};
ghost use Rattle.bike_schema.specs.Calls.{Writes};

use bike_book::table;
use bike_fixed::Cents;
use bike_schema::{OpenTransaction, StatementFault};
use bike_sql::write::run;
use sqlite::{Alter, params};

/// Adds the row, not blocked, with balance 0, nothing archived and no plan of its own.
pub(crate) fn add_rider<S: Alter>(
    tx: &mut OpenTransaction<'_, S>,
    rider: u32,
) -> Result<(), StatementFault>
    ensures { Writes S.Store tx.old.conn tx.new.conn result (record_write (change.AddRider rider)) }
{
    run(
        tx,
        table!(insert riders),
        params![rider, false, 0_i64, 0_i64, None::<&str>],
    )
}

/// Sets whether the rider is blocked.
pub(crate) fn set_rider<S: Alter>(
    tx: &mut OpenTransaction<'_, S>,
    rider: u32,
    is_blocked: bool,
) -> Result<(), StatementFault>
    ensures { Writes S.Store tx.old.conn tx.new.conn result (record_write (change.SetRider rider is_blocked)) }
{
    run(
        tx,
        "UPDATE riders_4 SET blocked = ?2 WHERE rider = ?1",
        params![rider, is_blocked],
    )
}

/// Sets the rider's balance.
pub(crate) fn set_balance<S: Alter>(
    tx: &mut OpenTransaction<'_, S>,
    rider: u32,
    balance: Cents,
) -> Result<(), StatementFault>
    ensures { Writes S.Store tx.old.conn tx.new.conn result (write_of (row.SetBalance rider balance)) }
{
    run(
        tx,
        "UPDATE riders_4 SET balance = ?2 WHERE rider = ?1",
        params![rider, balance.hundredths()],
    )
}
