//! What the operator holds in byte order of identifiers, or of languages, one after another: what a feed lists.

ghost use Rattle.std.specs.Prelude.{◌≡◌, ◌≢◌, Err, option_map};
ghost use Rattle.bike_queries.specs.After.{IsNext, first_after, next_language};
ghost use Rattle.bike_queries.specs.Pages.{AreNamedStations, AreStatuses, page_after};
ghost use Rattle.bike_desk.specs.Queries.{Queries};

use crate::desk::Desk;
use crate::fault::DeskFault;
use bike_catalogue::{Plan, Region, VehicleType};
use bike_fields::{Ident, Language};
use bike_queries::{
    NamedStation, StationStatus, find_language_after, find_plan_after, find_region_after,
    find_stations_after, find_statuses_after, find_type_after,
};
use sqlite::Alter;
use std::alloc::Global;
use std::collections::VecDeque;

/// Each answers the first whose identifier comes after the given one in byte order, or the first of all, and None
/// exactly where none is left: a caller who hands back the identifier that was answered walks over all. So it is of
/// languages by themselves. Of stations a page is answered, the first ones, which is empty exactly where none is left:
/// a walk goes on after its last. Nothing that is kept changes. Faults come as those of the other queries do.
impl<S: Alter> Desk<S> {
    /// The next vehicle type.
    pub fn type_after(
        &mut self,
        alloc: Global,
        after: Option<&Ident>,
    ) -> Result<Option<VehicleType>, DeskFault>
        ensures query { Queries S.Store self.old self.new result
            (λ s x. IsNext (λ t. t.type_id) (first_after (option_map (λ id. id.now) after.entry) s.types) x) }
        ensures takes_none { result ≢ Err DeskFault.NoMemory }
    {
        self.check_serving()?;
        let read = find_type_after(alloc, &mut self.conn, after);
        self.answer(read)
    }

    /// The next region.
    pub fn region_after(
        &mut self,
        alloc: Global,
        after: Option<&Ident>,
    ) -> Result<Option<Region>, DeskFault>
        ensures query { Queries S.Store self.old self.new result
            (λ s x. IsNext (λ r. r.region_id) (first_after (option_map (λ id. id.now) after.entry) s.regions) x) }
        ensures takes_none { result ≢ Err DeskFault.NoMemory }
    {
        self.check_serving()?;
        let read = find_region_after(alloc, &mut self.conn, after);
        self.answer(read)
    }

    /// The next stations, as many as a page holds. With `translated` each has its further names; else none are asked
    /// for, and none has any.
    pub fn stations_after(
        &mut self,
        alloc: Global,
        after: Option<&Ident>,
        translated: bool,
    ) -> Result<VecDeque<NamedStation>, DeskFault>
        ensures query { Queries S.Store self.old self.new result (λ s page.
            AreNamedStations translated s (page_after (option_map (λ id. id.now) after.entry) s.stations) page.items) }
        ensures takes_none { result ≢ Err DeskFault.NoMemory }
    {
        self.check_serving()?;
        let read = find_stations_after(alloc, &mut self.conn, after, translated);
        self.answer(read)
    }

    /// The next stations with their counts, as GBFS's `station_status` shows them, by the stored numbers: as many as a
    /// page holds. The counts are of the bicycles of the types with these identifiers, in their order: of all, with
    /// those that `type_ids` answers.
    pub fn statuses_after(
        &mut self,
        alloc: Global,
        after: Option<&Ident>,
        type_ids: &[Ident],
    ) -> Result<VecDeque<StationStatus>, DeskFault>
        ensures query { Queries S.Store self.old self.new result (λ s page.
            AreStatuses s type_ids.now (page_after (option_map (λ id. id.now) after.entry) s.stations) page.items) }
        ensures takes_none { result ≢ Err DeskFault.NoMemory }
    {
        self.check_serving()?;
        let read = find_statuses_after(alloc, &mut self.conn, after, type_ids);
        self.answer(read)
    }

    /// The next pricing plan, with its segments.
    pub fn plan_after(
        &mut self,
        alloc: Global,
        after: Option<&Ident>,
    ) -> Result<Option<Plan>, DeskFault>
        ensures query { Queries S.Store self.old self.new result
            (λ s x. IsNext (λ p. p.plan_id) (first_after (option_map (λ id. id.now) after.entry) s.plans) x) }
        ensures takes_none { result ≢ Err DeskFault.NoMemory }
    {
        self.check_serving()?;
        let read = find_plan_after(alloc, &mut self.conn, after);
        self.answer(read)
    }

    /// The next language of further names, whatever has them.
    pub fn language_after(
        &mut self,
        alloc: Global,
        after: Option<&Language>,
    ) -> Result<Option<Language>, DeskFault>
        ensures query { Queries S.Store self.old self.new result
            (λ s x. x ≡ next_language (option_map (λ l. l.now) after.entry) s) }
        ensures takes_none { result ≢ Err DeskFault.NoMemory }
    {
        self.check_serving()?;
        let read = find_language_after(alloc, &mut self.conn, after);
        self.answer(read)
    }
}
