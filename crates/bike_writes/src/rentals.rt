//! The statements on `rentals`.

ghost use Rattle.bike_accepted.specs.declared.change.Change.TheVariants as change;
ghost use Rattle.bike_book.specs.declared.row_change.RowChange.TheVariants as row;
ghost use Rattle.bike_book.specs.Writes.{record_write, write_of};
ghost use Rattle.bike_schema.specs.Calls.{Writes};

use crate::columns::{seconds_of, text_in};
use bike_book::table;
use bike_fields::Ident;
use bike_fixed::{Cents, Moment};
use bike_schema::{OpenTransaction, StatementFault};
use bike_sql::write::run;
use sqlite::{Alter, params};

/// Adds a rental, open and without refunds.
pub(crate) fn add_rental<S: Alter>(
    tx: &mut OpenTransaction<'_, S>,
    rental: u32,
    rider: u32,
    bike: u32,
    plan: &Ident,
    from_station: &Ident,
    start: Moment,
) -> Result<(), StatementFault>
    ensures { Writes S.Store tx.old.conn tx.new.conn result
        (record_write (change.AddRental rental rider bike plan.entry from_station.entry start)) }
{
    run(
        tx,
        table!(insert rentals),
        params![
            rental,
            rider,
            bike,
            plan.as_str(),
            from_station.as_str(),
            seconds_of(start),
            None::<i64>,
            None::<i64>,
            None::<i64>,
            0_i64
        ],
    )
}

/// Closes a rental, at a station or, where there is none, by a recovery.
pub(crate) fn close_rental<S: Alter>(
    tx: &mut OpenTransaction<'_, S>,
    rental: u32,
    to_station: Option<&Ident>,
    finish: Moment,
    fare: Cents,
) -> Result<(), StatementFault>
    ensures { Writes S.Store tx.old.conn tx.new.conn result
        (record_write (change.CloseRental rental to_station.entry finish fare)) }
{
    run(
        tx,
        "UPDATE rentals SET to_station = ?2, finish = ?3, fare = ?4 WHERE rental = ?1",
        params![
            rental,
            text_in(to_station),
            seconds_of(finish),
            fare.hundredths()
        ],
    )
}

/// Sets the sum of a rental's refunds.
pub(crate) fn set_refunded<S: Alter>(
    tx: &mut OpenTransaction<'_, S>,
    rental: u32,
    refunded: Cents,
) -> Result<(), StatementFault>
    ensures { Writes S.Store tx.old.conn tx.new.conn result (write_of (row.SetRefunded rental refunded)) }
{
    run(
        tx,
        "UPDATE rentals SET refunded = ?2 WHERE rental = ?1",
        params![rental, refunded.hundredths()],
    )
}
