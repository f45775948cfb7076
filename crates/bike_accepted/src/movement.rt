//! What is put or marked at a dock, and docks that a station gets.

use bike_fields::{DockCount, Ident};
use bike_operator::{BikeState, NewPlace};

/// What a bicycle is good for and where it is: what of its record changes.
#[derive(Clone, Copy)]
pub struct BikeStatus<'a> {
    /// What it is good for.
    pub state: BikeState,
    /// Where it is.
    pub place: NewPlace<'a>,
}

/// A dock and its mark, as they were found.
#[derive(Clone, Copy)]
pub struct DockAt<'a> {
    /// The station.
    pub station: &'a Ident,
    /// The dock's number.
    pub dock: u32,
    /// Whether the dock is broken.
    pub is_broken: bool,
}

/// The bicycle in a dock that is marked.
#[derive(Clone, Copy)]
pub struct DockOccupant<'a> {
    /// Its number.
    pub bike: u32,
    /// Its vehicle type.
    pub type_id: &'a Ident,
    /// What it is good for.
    pub state: BikeState,
}

/// What touches the numbers that are stored of a station: a bicycle's record that is put, docks that a station gets, or
/// a dock that is marked. By the report rule the station of a dock that is named reports.
#[derive(Clone, Copy)]
pub enum Movement<'a> {
    /// A bicycle is put from no dock to none.
    Away {
        bike: u32,
        type_id: &'a Ident,
        was: BikeStatus<'a>,
        becomes: BikeStatus<'a>,
    },
    /// A bicycle is put from a dock, into it, or in another state in it.
    AtDock {
        at: DockAt<'a>,
        bike: u32,
        type_id: &'a Ident,
        was: BikeStatus<'a>,
        becomes: BikeStatus<'a>,
    },
    /// A station that has so many docks gets more of them. It doesn't report.
    AddDocks {
        station: &'a Ident,
        was: &'a DockCount,
        count: &'a DockCount,
    },
    /// A dock is marked, with what is in it.
    Marked {
        at: DockAt<'a>,
        held: Option<DockOccupant<'a>>,
        is_broken: bool,
    },
}
