//! The statements on `entries` and `history`.

ghost use Rattle.bike_book.specs.declared.row_change.RowChange.TheVariants as row;
ghost use Rattle.bike_book.specs.Writes.{write_of};
ghost use Rattle.bike_schema.specs.Calls.{Writes};

use crate::columns::{kind_number, seconds_of};
use bike_book::{RequestCount, table};
use bike_fixed::Moment;
use bike_ledger::Entry;
use bike_schema::{OpenTransaction, StatementFault};
use bike_sql::write::run;
use sqlite::{Alter, params};

/// Adds an entry.
pub(crate) fn add_entry<S: Alter>(
    tx: &mut OpenTransaction<'_, S>,
    entry: &Entry,
) -> Result<(), StatementFault>
    ensures { Writes S.Store tx.old.conn tx.new.conn result (write_of (row.AddEntry entry.entry)) }
{
    run(
        tx,
        table!(insert entries),
        params![
            entry.number().get(),
            kind_number(entry.kind()),
            entry.rider().get(),
            entry.rental().get(),
            entry.amount().hundredths(),
            seconds_of(entry.at())
        ],
    )
}

/// Adds a request to the history.
pub(crate) fn add_request<S: Alter>(
    tx: &mut OpenTransaction<'_, S>,
    number: RequestCount,
    moment: Moment,
    caller: &str,
    key: &str,
    command: &str,
    reply: &str,
) -> Result<(), StatementFault>
    ensures { Writes S.Store tx.old.conn tx.new.conn result
        (write_of (row.AddRequest number moment caller.entry key.entry command.entry reply.entry)) }
{
    run(
        tx,
        table!(insert history),
        params![
            number.number(),
            seconds_of(moment),
            caller,
            key,
            command,
            reply
        ],
    )
}
