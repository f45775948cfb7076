//! What lies in a span of time in order of its numbers, one after another: what a day's tables list.

ghost use Rattle.std.specs.Prelude.{◌≡◌, ◌≢◌, Err};
ghost use Rattle.bike_queries.specs.Spans.{ended_info_after, entry_after};
ghost use Rattle.bike_desk.specs.Queries.{Queries};

use crate::desk::Desk;
use crate::fault::DeskFault;
use bike_fields::RentalNumber;
use bike_fixed::Moment;
use bike_ledger::Entry;
use bike_operator::RentalInfo;
use bike_queries::{find_ended_after, find_entry_after};
use sqlite::Alter;
use std::alloc::Global;

/// Each answers the first that has a greater number than the given one and whose moment is `begin` or later and before
/// `end`, and None exactly where none is left: a caller who begins with 0 and hands back the number that was answered
/// walks over the whole span, in one pass over the table. Nothing that is kept changes. Faults come as those of the
/// other queries do.
impl<S: Alter> Desk<S> {
    /// The next entry of the ledger that was booked in the span.
    pub fn entry_after(
        &mut self,
        number: u64,
        begin: Moment,
        end: Moment,
    ) -> Result<Option<Entry>, DeskFault>
        ensures query { Queries S.Store self.old self.new result (λ s x. x ≡ entry_after s number begin end) }
        ensures takes_none { result ≢ Err DeskFault.NoMemory }
    {
        self.check_serving()?;
        let read = find_entry_after(&mut self.conn, number, begin, end);
        self.answer(read)
    }

    /// The next rental that ended in the span, with its number.
    pub fn ended_after(
        &mut self,
        alloc: Global,
        number: u64,
        begin: Moment,
        end: Moment,
    ) -> Result<Option<(RentalNumber, RentalInfo)>, DeskFault>
        ensures query { Queries S.Store self.old self.new result
            (λ s x. x ≡ ended_info_after s number begin end) }
        ensures takes_none { result ≢ Err DeskFault.NoMemory }
    {
        self.check_serving()?;
        let read = find_ended_after(alloc, &mut self.conn, number, begin, end);
        self.answer(read)
    }
}
