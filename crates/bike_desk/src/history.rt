//! The accepted requests in order of their numbers: what a follower is told, and what a day lists.

ghost use Rattle.std.specs.Prelude.{◌≡◌, ◌≢◌, Err, IfOk, option_map};
ghost use Rattle.bike_operator.specs.Requests.{request_texts};
ghost use Rattle.bike_queries.specs.Requests.{request_after, request_page};
ghost use Rattle.sqlite.specs.State.{HasCleanDisk};
ghost use Rattle.bike_operator.specs.Operator.{Operator};
ghost use Rattle.bike_desk.specs.Desk.{IsAt, desk_state};
ghost use Rattle.bike_desk.specs.Queries.{BeginsAt, Queries};

use crate::desk::Desk;
use crate::fault::DeskFault;
use bike_fixed::Moment;
use bike_operator::{RequestInfo, RequestPage};
use bike_queries::{find_history_begin, find_request_after, find_requests_after};
use sqlite::Alter;
use std::alloc::Global;

/// A caller who begins with 0 and hands back the number of the last that was answered walks over the whole history, in
/// the order in which it was accepted, each request with the reply that it was given. Nothing that is kept changes.
/// Faults come as those of the other queries do.
impl<S: Alter> Desk<S> {
    /// The requests of a later number, the first ones, as many as a page holds: an empty page exactly where none is
    /// left.
    pub fn requests_after(&mut self, alloc: Global, number: u64) -> Result<RequestPage, DeskFault>
        ensures query { Queries S.Store self.old self.new result (λ s page. page ≡ request_page s number) }
        ensures takes_none { result ≢ Err DeskFault.NoMemory }
    {
        self.check_serving()?;
        let read = find_requests_after(alloc, &mut self.conn, number);
        self.answer(read)
    }

    /// The number behind which the history stands with the moments that its requests had: behind those that were
    /// archived, and behind those that the city had when it was upgraded, of which no moment is kept.
    pub fn history_begin(&mut self) -> Result<u64, DeskFault>
        ensures query { Queries S.Store self.old self.new result (λ s number. Unit {0}) }
        ensures begin { HasCleanDisk (desk_state S.Store self.new) → (s : Operator) → IsAt S.Store self.old s
            → IfOk result (BeginsAt (desk_state S.Store self.old).now s) }
        ensures takes_none { result ≢ Err DeskFault.NoMemory }
    {
        self.check_serving()?;
        let read = find_history_begin(&mut self.conn);
        self.answer(read)
    }

    /// The first request of a later number whose moment is `begin` or later and before `end`, and None exactly where
    /// none is left.
    pub fn request_after(
        &mut self,
        alloc: Global,
        number: u64,
        begin: Moment,
        end: Moment,
    ) -> Result<Option<RequestInfo>, DeskFault>
        ensures query { Queries S.Store self.old self.new result
            (λ s x. x ≡ option_map request_texts (request_after s number begin end)) }
        ensures takes_none { result ≢ Err DeskFault.NoMemory }
    {
        self.check_serving()?;
        let read = find_request_after(alloc, &mut self.conn, number, begin, end);
        self.answer(read)
    }
}
