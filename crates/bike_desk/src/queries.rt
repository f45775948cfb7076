//! What a desk holds of a name, without a change of what is kept.

ghost use Rattle.std.specs.Prelude.{◌≡◌, ◌≢◌, false, Err, IsTrue, MatchResult};
ghost use Rattle.std.specs.FinMap as map;
ghost use Rattle.bike_operator.specs.Names.{further_names};
ghost use Rattle.bike_operator.specs.Operator.{item_numbered};
ghost use Rattle.bike_queries.specs.Infos.{balance_at, place_at, rental_info_at, rider_info_at};
ghost use Rattle.bike_queries.specs.StationCounts.{AreCountsAt};
ghost use Rattle.bike_desk.specs.Queries.{Queries, TellsOf};

use crate::desk::Desk;
use crate::fault::DeskFault;
use crate::newest::Newest;
use bike_catalogue::{MoreName, System};
use bike_fields::{BicycleNumber, Ident, NameKind, OrderNumber, RentalNumber, RiderNumber};
use bike_fixed::{Cents, Moment};
use bike_fleet_reads::{find_bike, find_order};
use bike_office_reads::{find_names, newest_tells};
use bike_operator::{Bike, Counts, MOST_TYPES, Order, Place, RentalInfo};
use bike_queries::{
    RiderInfo, find_balance, find_place, find_rental_info, find_rider_info, find_station_counts,
    find_system, find_type_ids,
};
use bike_schema::StatementFault;
use bike_views::find_figures;
use sqlite::Alter;
use std::alloc::Global;

/// Each query answers what the operator holds of a name, and None exactly where the name isn't there. Nothing that is
/// kept changes. `StoreFailed` stops the desk, also where memory is refused while a row is copied out; a stopped desk
/// answers `Stopped` and stays as it is; no other desk answers that.
impl<S: Alter> Desk<S> {
    /// Whether the desk serves; `Stopped` where it serves no more.
    pub(crate) fn check_serving(&self) -> Result<(), DeskFault>
        ensures { MatchResult result (λ _. self.now.is_stopped ≡ false)
            (λ fault. (fault ≡ DeskFault.Stopped) × IsTrue self.now.is_stopped) }
    {
        if self.stopped() {
            return Err(DeskFault::Stopped);
        }
        Ok(())
    }

    /// What a read answered; one that failed stops the desk.
    pub(crate) fn answer<A>(&mut self, read: Result<A, StatementFault>) -> Result<A, DeskFault>
        ensures { TellsOf read self.old self.new result }
    {
        match read {
            Ok(answer) => Ok(answer),
            Err(_) => {
                self.stopped = true;
                Err(DeskFault::StoreFailed)
            }
        }
    }

    /// Asks whether each open rental is its rider's newest, and keeps the answer.
    fn learn_newest(&mut self) -> Result<(), DeskFault>
        requires { self.old.is_stopped ≡ false }
        ensures query { Queries S.Store self.old self.new result (λ s x. Unit {0}) }
        ensures takes_none { result ≢ Err DeskFault.NoMemory }
    {
        match newest_tells(&mut self.conn) {
            Ok(tells) => {
                self.newest = Newest::found(tells);
                Ok(())
            }
            Err(_) => {
                self.stopped = true;
                Err(DeskFault::StoreFailed)
            }
        }
    }

    /// Reads the operator's figures, which are remembered from then on, and tells its `now`.
    fn learn_figures(&mut self) -> Result<Moment, DeskFault>
        requires { self.old.is_stopped ≡ false }
        ensures query { Queries S.Store self.old self.new result (λ s x. x ≡ s.now) }
        ensures takes_none { result ≢ Err DeskFault.NoMemory }
    {
        match find_figures(&mut self.conn) {
            Ok(figures) => {
                let now = figures.now;
                self.figures = Some(figures);
                Ok(now)
            }
            Err(_) => {
                self.stopped = true;
                Err(DeskFault::StoreFailed)
            }
        }
    }

    /// The operator's `now`: the greatest moment of an accepted request, 0 where there was none. It is read once, and
    /// known from then on.
    pub fn now(&mut self) -> Result<Moment, DeskFault>
        ensures query { Queries S.Store self.old self.new result (λ s x. x ≡ s.now) }
        ensures takes_none { result ≢ Err DeskFault.NoMemory }
    {
        self.check_serving()?;
        match self.figures {
            Some(figures) => Ok(figures.now),
            None => self.learn_figures(),
        }
    }

    /// The rider, by what is known of newest rentals.
    fn find_rider(&mut self, rider: RiderNumber) -> Result<Option<RiderInfo>, DeskFault>
        requires { self.old.is_stopped ≡ false }
        ensures query { Queries S.Store self.old self.new result (λ s x. x ≡ rider_info_at s rider) }
        ensures takes_none { result ≢ Err DeskFault.NoMemory }
    {
        let read = find_rider_info(&mut self.conn, rider, self.newest.tells());
        self.answer(read)
    }

    /// The rider's balance, the sum of what the ledger books for the rider.
    pub fn balance(&mut self, rider: RiderNumber) -> Result<Option<Cents>, DeskFault>
        ensures query { Queries S.Store self.old self.new result (λ s x. x ≡ balance_at s rider) }
        ensures takes_none { result ≢ Err DeskFault.NoMemory }
    {
        self.check_serving()?;
        let read = find_balance(&mut self.conn, rider);
        self.answer(read)
    }

    /// The rider: whether blocked, the balance, and the number of the open rental. The first such query or start reads
    /// each rental once; from then on the time doesn't grow with the rider's rentals, where each open rental is its
    /// rider's newest.
    pub fn rider(&mut self, rider: RiderNumber) -> Result<Option<RiderInfo>, DeskFault>
        ensures query { Queries S.Store self.old self.new result (λ s x. x ≡ rider_info_at s rider) }
        ensures takes_none { result ≢ Err DeskFault.NoMemory }
    {
        self.check_serving()?;
        match self.newest {
            Newest::Unknown => {
                self.learn_newest()?;
                self.find_rider(rider)
            }
            Newest::Tells | Newest::Walks => self.find_rider(rider),
        }
    }

    /// Where the bicycle is.
    pub fn place(&mut self, alloc: Global, bike: BicycleNumber) -> Result<Option<Place>, DeskFault>
        ensures query { Queries S.Store self.old self.new result (λ s x. x ≡ place_at s bike) }
        ensures takes_none { result ≢ Err DeskFault.NoMemory }
    {
        self.check_serving()?;
        let read = find_place(alloc, &mut self.conn, bike);
        self.answer(read)
    }

    /// The bicycle: its vehicle type, its state, and where it is.
    pub fn bike(&mut self, alloc: Global, bike: BicycleNumber) -> Result<Option<Bike>, DeskFault>
        ensures query { Queries S.Store self.old self.new result (λ s x. x ≡ map.get s.bikes bike) }
        ensures takes_none { result ≢ Err DeskFault.NoMemory }
    {
        self.check_serving()?;
        let read = find_bike(alloc, &mut self.conn, bike);
        self.answer(read)
    }

    /// The rental, and how it was closed with the sum of its refunds.
    pub fn rental(
        &mut self,
        alloc: Global,
        rental: RentalNumber,
    ) -> Result<Option<RentalInfo>, DeskFault>
        ensures query { Queries S.Store self.old self.new result (λ s x. x ≡ rental_info_at s rental) }
        ensures takes_none { result ≢ Err DeskFault.NoMemory }
    {
        self.check_serving()?;
        let read = find_rental_info(alloc, &mut self.conn, rental);
        self.answer(read)
    }

    /// The order of a truck.
    pub fn order(&mut self, alloc: Global, order: OrderNumber) -> Result<Option<Order>, DeskFault>
        ensures query { Queries S.Store self.old self.new result (λ s x. x ≡ item_numbered order s.orders) }
        ensures takes_none { result ≢ Err DeskFault.NoMemory }
    {
        self.check_serving()?;
        let read = find_order(alloc, &mut self.conn, order);
        self.answer(read)
    }

    /// The system, where it is set.
    pub fn system(&mut self, alloc: Global) -> Result<Option<System>, DeskFault>
        ensures query { Queries S.Store self.old self.new result (λ s x. x ≡ s.system) }
        ensures takes_none { result ≢ Err DeskFault.NoMemory }
    {
        self.check_serving()?;
        let read = find_system(alloc, &mut self.conn);
        self.answer(read)
    }

    /// The identifiers of all vehicle types, in byte order.
    pub fn type_ids(&mut self, alloc: Global) -> Result<Vec<Ident>, DeskFault>
        ensures query { Queries S.Store self.old self.new result (λ s x. x.items ≡ map.keys s.types) }
        ensures takes_none { result ≢ Err DeskFault.NoMemory }
    {
        self.check_serving()?;
        let read = find_type_ids(alloc, &mut self.conn);
        self.answer(read)
    }

    /// The names in further languages of what has this kind and identifier, in byte order of their languages.
    pub fn names_of(
        &mut self,
        alloc: Global,
        kind: NameKind,
        id: &Ident,
    ) -> Result<Vec<MoreName>, DeskFault>
        ensures query { Queries S.Store self.old self.new result (λ s x. x.items ≡ further_names s kind id.now) }
        ensures takes_none { result ≢ Err DeskFault.NoMemory }
    {
        self.check_serving()?;
        let read = find_names(alloc, &mut self.conn, kind, id);
        self.answer(read)
    }

    /// The counts of the station, as GBFS's `station_status` shows them: the stored numbers, and no bicycle counted.
    /// Room for the list of types is taken before the database is reached; where that is refused, `NoMemory` comes.
    pub fn station_counts(
        &mut self,
        alloc: Global,
        station: &Ident,
    ) -> Result<Option<Counts>, DeskFault>
        ensures query { Queries S.Store self.old self.new result (λ s x. AreCountsAt s station.now x) }
    {
        self.check_serving()?;
        let Ok(room) = Vec::with_capacity(alloc, MOST_TYPES as usize) else {
            return Err(DeskFault::NoMemory);
        };
        let read = find_station_counts(alloc, &mut self.conn, station, room);
        self.answer(read)
    }
}
