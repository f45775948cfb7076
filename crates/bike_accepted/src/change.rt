//! Records that are put, added or removed, but for those of bicycles that are there and of docks.

use bike_catalogue::{Plan, Region, Settings, Station, System, VehicleType};
use bike_fields::{Ident, Language, Name, NameKind, Position};
use bike_fixed::{Cents, Moment};
use bike_texts::OrderEnd;

/// One record that is put, added or removed, with all that its row gets. What is added wasn't there. Money is in
/// hundredths, moments in seconds.
#[derive(Clone, Copy)]
pub enum Change<'a> {
    /// The system is set.
    SetSystem(&'a System),
    /// A plan is added.
    AddPlan(&'a Plan),
    /// A vehicle type is added.
    AddType(&'a VehicleType),
    /// A vehicle type gets another default plan.
    SetPlan {
        type_id: &'a Ident,
        plan: &'a Ident,
    },
    /// A station is added: installed, renting and returning, in no region, with all docks available.
    AddStation {
        station: &'a Station,
        reported: Moment,
    },
    /// A station gets its flags, and reports.
    SetStation {
        station: &'a Ident,
        is_installed: bool,
        is_renting: bool,
        is_returning: bool,
        reported: Moment,
    },
    /// A region is added.
    AddRegion(&'a Region),
    /// A station is put into a region, or into none.
    SetRegion {
        station: &'a Ident,
        region: Option<&'a Ident>,
    },
    /// A name in a further language is added.
    AddName {
        kind: NameKind,
        id: &'a Ident,
        language: &'a Language,
        name: &'a Name,
    },
    /// What has this kind and identifier gets another name in the system's language, in its own record.
    SetOwnName {
        kind: NameKind,
        id: &'a Ident,
        name: &'a Name,
    },
    /// A name in a further language becomes another.
    SetFurtherName {
        kind: NameKind,
        id: &'a Ident,
        language: &'a Language,
        name: &'a Name,
    },
    /// A name in a further language is removed.
    RemoveName {
        kind: NameKind,
        id: &'a Ident,
        language: &'a Language,
    },
    /// The system gets other settings.
    ChangeSystem(&'a Settings),
    /// A station is moved to another position.
    MoveStation {
        station: &'a Ident,
        position: &'a Position,
    },
    /// A bicycle is added, fit and in the depot.
    AddBike {
        bike: u32,
        type_id: &'a Ident,
    },
    /// A truck is added.
    AddTruck {
        truck: u32,
        capacity: u32,
    },
    /// A rider is added, who isn't blocked, with balance 0.
    AddRider {
        rider: u32,
    },
    /// A rider is blocked or opened.
    SetRider {
        rider: u32,
        is_blocked: bool,
    },
    /// A rental is added, which is open, without refunds.
    AddRental {
        rental: u32,
        rider: u32,
        bike: u32,
        plan: &'a Ident,
        from_station: &'a Ident,
        start: Moment,
    },
    /// A rental is closed at a station or, where there is none, recovered.
    CloseRental {
        rental: u32,
        to_station: Option<&'a Ident>,
        finish: Moment,
        fare: Cents,
    },
    /// An order is added, which is open, with nothing delivered.
    AddOrder {
        order: u32,
        truck: u32,
        from_end: &'a OrderEnd,
        to_end: &'a OrderEnd,
        type_id: &'a Ident,
        count: u32,
    },
    /// An order has so many bicycles delivered, and is open or closed.
    SetOrder {
        order: u32,
        delivered: u32,
        is_open: bool,
    },
}
