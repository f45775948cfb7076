//! The stations of a feed, which the desk answers page by page.

ghost use Rattle.std.specs.Prelude.{◌≡◌, ◌≢◌, false, true, Err, option_map};
ghost use Rattle.bike_queries.specs.Pages.{IsNamedStation, IsStatusOf, IsTold};
ghost use Rattle.bike_desk.specs.Queries.{Queries};
ghost use Rattle.bike_feeds.specs.Pages.{AreAhead, TakesNext};

use bike_desk::{Desk, DeskFault};
use bike_fields::Ident;
use bike_queries::{NamedStation, StationStatus};
use sqlite::Alter;
use std::alloc::Global;
use std::collections::VecDeque;

/// The station after this one with its further names: the first that is left of the page, or of the next page.
pub(crate) fn next_station<S: Alter>(
    alloc: Global,
    desk: &mut Desk<S>,
    page: &mut VecDeque<NamedStation>,
    after: Option<&Ident>,
    translated: bool,
) -> Result<Option<NamedStation>, DeskFault>
    requires { desk.old.is_stopped ≡ false }
    ensures query { Queries S.Store desk.old desk.new result (λ s next. IsTold translated s
        → AreAhead (IsNamedStation true s) s (option_map (λ id. id.now) after.entry) page.old.items
        → TakesNext (IsNamedStation true s) s (option_map (λ id. id.now) after.entry) next page.new.items) }
    ensures takes_none { result ≢ Err DeskFault.NoMemory }
{
    if let Some(next) = page.pop_front() {
        return Ok(Some(next));
    }
    let more = desk.stations_after(alloc, after, translated)?;
    *page = more;
    Ok(page.pop_front())
}

/// The station after this one with its counts: the first that is left of the page, or of the next page.
pub(crate) fn next_status<S: Alter>(
    alloc: Global,
    desk: &mut Desk<S>,
    page: &mut VecDeque<StationStatus>,
    after: Option<&Ident>,
    type_ids: &[Ident],
) -> Result<Option<StationStatus>, DeskFault>
    requires { desk.old.is_stopped ≡ false }
    ensures query { Queries S.Store desk.old desk.new result (λ s next.
        AreAhead (IsStatusOf s type_ids.now) s (option_map (λ id. id.now) after.entry) page.old.items
        → TakesNext (IsStatusOf s type_ids.now) s (option_map (λ id. id.now) after.entry) next page.new.items) }
    ensures takes_none { result ≢ Err DeskFault.NoMemory }
{
    if let Some(next) = page.pop_front() {
        return Ok(Some(next));
    }
    let more = desk.statuses_after(alloc, after, type_ids)?;
    *page = more;
    Ok(page.pop_front())
}
