//! Bicycles in one dock.

ghost use Rattle.std.specs.Prelude.{◌≡◌, List, Option, Some, None, IfOk, [], ◌∷◌, option_map, option_and_then};
ghost use Rattle.sqlite_value.specs.Order.{Row};
ghost use Rattle.bike_readings.specs.Views.{bike_of, place_of};
ghost use Rattle.bike_judges.specs.Judging.{Continues, key_row};
ghost use Rattle.bike_fleet_rules.specs.Docks.{counted_line, docked_in, is_dock, is_this_dock, is_one_dock, shared_by};
ghost use Rattle.bike_fleet_rules.specs.Docks.{lesser_number, dock_pass, number_row};

use crate::counted::{counted_bike, number_in};
use bike_fields::DockNumber;
use bike_fixed::Within;
use bike_judges::{BadKey, Judge};
use bike_readings::{StoredBike, StoredPlace};
use bike_schema::StatementFault;
use sqlite::Row;

/// The column that says which table the line is of, behind station and dock.
const TABLE: usize = 2;

/// The column with the number of the bicycle.
const BIKE: usize = 3;

/// Where the row begins, of whatever table it is.
const ROW_AT: usize = BIKE + 1;

/// Docks with the bicycles in them: a bicycle in the dock of the one before it is bad.
#[derive(Drop)]
pub(crate) struct DockJudge {
    /// The last line of a bicycle in a dock.
    last: Option<Row>,
    /// The least number of a bad one so far.
    found: Option<u32>,
}

/// The bicycle of a line.
fn counted_line(line: &Row) -> Option<StoredBike<'_>>
    ensures { option_map bike_of result ≡ counted_line line.now }
{
    let place: Option<Within<1, 1>> = number_in(line, TABLE);
    if place.is_none() {
        return None;
    }
    counted_bike(line, ROW_AT)
}

/// Whether the place is a dock.
fn is_dock(place: &StoredPlace<'_>) -> bool
    ensures { result ≡ is_dock (place_of place.now) }
{
    matches!(
        place,
        StoredPlace::Dock {
            station: _,
            dock: _
        }
    )
}

/// The number of the bicycle of a line, where it is counted in a dock.
#[tactic(auto, using(crate::proofs::DockSteps::bike_docked), unfolding(crate::specs::Docks::docked_in))]
fn docked_bike(line: &Row) -> Option<u32>
    ensures { result ≡ option_map (λ d. d.bike) (docked_in line.now) }
{
    let Some(bike) = counted_line(line) else {
        return None;
    };
    if is_dock(&bike.place) {
        return Some(bike.bike.get());
    }
    None
}

/// Whether the place is this dock.
fn is_this_dock(place: &StoredPlace<'_>, station: &str, dock: DockNumber) -> bool
    ensures { result ≡ is_this_dock station.now dock (place_of place.now) }
{
    match place {
        StoredPlace::Dock {
            station: at,
            dock: number,
        } => station == *at && dock.get() == number.get(),
        _ => false,
    }
}

/// Whether the places are one dock.
#[tactic(auto, using(crate::proofs::DockSteps::none_shared))]
fn is_one_dock(last: &StoredPlace<'_>, next: &StoredPlace<'_>) -> bool
    ensures { result ≡ is_one_dock (place_of last.now) (place_of next.now) }
{
    match last {
        StoredPlace::Dock { station, dock } => is_this_dock(next, station, *dock),
        _ => false,
    }
}

/// Whether the bicycles of two lines are in one dock.
#[tactic(auto, using(crate::proofs::DockSteps::any_numbers), unfolding(crate::specs::Docks::docked_in))]
fn is_same_dock(last: &Row, next: &Row) -> bool
    ensures { result ≡ shared_by (docked_in last.now) (docked_in next.now) }
{
    let Some(last) = counted_line(last) else {
        return false;
    };
    let Some(next) = counted_line(next) else {
        return false;
    };
    is_one_dock(&last.place, &next.place)
}

/// The lesser of two numbers, of which the first may be missing.
fn lesser_number(found: Option<u32>, number: u32) -> u32
    ensures { Some result ≡ lesser_number found number }
{
    match found {
        Some(least) => least.min(number),
        None => number,
    }
}

impl DockJudge {
    /// Before the first line.
    pub(crate) fn new() -> DockJudge
        ensures last { result.last ≡ None }
        ensures found { result.found ≡ None }
    {
        DockJudge {
            last: None,
            found: None,
        }
    }

    /// Whether the line's bicycle is in the dock of the last.
    fn is_shared(&self, next: &Row) -> bool
        ensures { result ≡ shared_by (option_and_then docked_in self.now.last) (docked_in next.now) }
    {
        match &self.last {
            Some(last) => is_same_dock(last, next),
            None => false,
        }
    }
}

impl Judge for DockJudge {
    ghost says = { λ j lines verdict. option_map number_row
        (dock_pass (option_and_then docked_in j.last) j.found lines) ≡ verdict };

    fn take(&mut self, line: &Row) -> Result<Option<BadKey>, StatementFault> {
        let Some(bike) = docked_bike(line) else {
            return Ok(None);
        };
        if self.is_shared(line) {
            self.found = Some(lesser_number(self.found, bike));
        }
        self.last = Some(line.copy()?);
        Ok(None)
    }

    #[tactic(auto, using(crate::proofs::DockSteps::pass_end))]
    fn end(self) -> Option<BadKey> {
        match self.found {
            Some(number) => Some(BadKey::Number(i64::from(number))),
            None => None,
        }
    }
}
