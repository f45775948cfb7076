//! The statements on `orders`.

ghost use Rattle.bike_accepted.specs.declared.change.Change.TheVariants as change;
ghost use Rattle.bike_book.specs.Writes.{record_write};
ghost use Rattle.bike_schema.specs.Calls.{Writes};

use crate::columns::end_text;
use bike_book::table;
use bike_fields::Ident;
use bike_schema::{OpenTransaction, StatementFault};
use bike_sql::write::run;
use bike_texts::OrderEnd;
use sqlite::{Alter, params};

/// Adds an order, open, with nothing delivered.
pub(crate) fn add_order<S: Alter>(
    tx: &mut OpenTransaction<'_, S>,
    order: u32,
    truck: u32,
    from_end: &OrderEnd,
    to_end: &OrderEnd,
    type_id: &Ident,
    count: u32,
) -> Result<(), StatementFault>
    ensures { Writes S.Store tx.old.conn tx.new.conn result
        (record_write (change.AddOrder order truck from_end.entry to_end.entry type_id.entry count)) }
{
    run(
        tx,
        table!(insert orders),
        params![
            order,
            truck,
            end_text(from_end),
            end_text(to_end),
            type_id.as_str(),
            count,
            0_i64,
            true
        ],
    )
}

/// Sets how many bicycles of an order were delivered, and whether it is open.
pub(crate) fn set_order<S: Alter>(
    tx: &mut OpenTransaction<'_, S>,
    order: u32,
    delivered: u32,
    is_open: bool,
) -> Result<(), StatementFault>
    ensures { Writes S.Store tx.old.conn tx.new.conn result (record_write (change.SetOrder order delivered is_open)) }
{
    run(
        tx,
        "UPDATE orders SET delivered = ?2, is_open = ?3 WHERE ord = ?1",
        params![order, delivered, is_open],
    )
}
