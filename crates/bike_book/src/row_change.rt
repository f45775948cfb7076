//! Changes of one row each. Their numbers and texts are those of an operator's records.

use crate::by_type::{CountedType, TypeCounts};
use crate::requests::RequestCount;
use bike_accepted::Change;
use bike_fields::{Ident, Segment};
use bike_fixed::{Cents, Moment};
use bike_ledger::Entry;
use bike_operator::{BikeState, NewPlace};

/// One row that is added, under a key that is free, columns that are set in the row of a key, or a row that is
/// removed. Money is in hundredths, moments in seconds.
#[derive(Clone, Copy)]
pub enum RowChange<'a> {
    /// Puts, adds or removes the row of one record. The segments of a plan that is added are rows of their own.
    Record(&'a Change<'a>),
    /// Adds a row to `segments`, the `seq`-th of its plan from 1.
    AddSegment {
        plan: &'a Ident,
        seq: u32,
        segment: &'a Segment,
    },
    /// Sets how many docks a station has, and how many of them are available.
    SetDockCount {
        station: &'a Ident,
        docks: u32,
        free: u32,
    },
    /// Sets how many docks of a station are available, how many are broken, and when it reported last.
    SetDocksReported {
        station: &'a Ident,
        free: u32,
        broken: u32,
        reported: Moment,
    },
    /// Sets how many docks of a station are available, how many are broken, its bicycles by type, and when it reported
    /// last. The types are those that it had, of which one has these counts then.
    SetBikesReported {
        station: &'a Ident,
        free: u32,
        broken: u32,
        by_type: &'a [CountedType],
        type_id: &'a Ident,
        counts: TypeCounts,
        reported: Moment,
    },
    /// Adds a row to `docks`.
    AddDock {
        station: &'a Ident,
        dock: u32,
        is_broken: bool,
    },
    /// Sets whether a dock is broken.
    SetDock {
        station: &'a Ident,
        dock: u32,
        is_broken: bool,
    },
    /// Sets a bicycle's state and place.
    SetBike {
        bike: u32,
        state: BikeState,
        place: NewPlace<'a>,
    },
    /// Sets a rider's balance.
    SetBalance {
        rider: u32,
        balance: Cents,
    },
    /// Sets the sum of a rental's refunds.
    SetRefunded {
        rental: u32,
        refunded: Cents,
    },
    /// Adds a row to `entries`.
    AddEntry(&'a Entry),
    /// Adds a row to `history`: the next request, with the moment of its acceptance and the texts of caller, key,
    /// command and reply.
    AddRequest {
        number: RequestCount,
        moment: Moment,
        caller: &'a str,
        key: &'a str,
        command: &'a str,
        reply: &'a str,
    },
}

/// Fills a fixed array's places that hold no row change yet; it is never made.
impl<'a> Default for RowChange<'a> {
    fn default() -> RowChange<'a> {
        RowChange::SetBalance {
            rider: 0,
            balance: Cents::new(0),
        }
    }
}
