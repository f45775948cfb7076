//! Lines of tables that mix.

ghost use Rattle.std.specs.Prelude.{◌≡◌, ◌+◌, ◌&&◌, nat_le, length, [], ◌∷◌, IfOk, is_some, option_map};
ghost use Rattle.sqlite_value.specs.Order.{column};
ghost use Rattle.bike_book.specs.declared.columns.bikes.TheConstants as bikes;
ghost use Rattle.bike_judges.specs.Judging.{key_row};
ghost use Rattle.bike_judges.specs.Lines.{part};
ghost use Rattle.bike_station_rules.specs.Stations.{is_same_text, is_place};
ghost use Rattle.bike_station_rules.specs.declared.lines.TheConstants.{ROW_AT, BIKE, PLACE, DOCK, RENTAL, TRUCK};
ghost use Rattle.bike_station_rules.specs.declared.lines.TheConstants.{ORDER};
ghost use Rattle.bike_schema.specs.Columns.{text_in, ident_in, state_in};
ghost use Rattle.bike_operator.specs.Counts.{is_fit};
ghost use Rattle.bike_readings.specs.ColumnReaders.{numbered_in};
ghost use Rattle.bike_station_rules.specs.Views.{docked_of};
ghost use Rattle.bike_station_rules.specs.Docked.{docked_in, docked_columns, dock_named, keep_bounds};

use bike_book::columns::bikes;
use bike_fields::{BicycleNumber, DockNumber, Ident, OrderNumber, RentalNumber, TruckNumber};
use bike_judges::BadKey;
use bike_operator::BikeState;
use bike_schema::{StatementFault, number_at, optional_number_at, state_at};
use sqlite::Row;
use sqlite::types::ValueRef;
use std::marker::Model;

/// The column with the identifier of the station.
const STATION: usize = 0;

/// The column that says which table the line is of.
const TABLE: usize = 1;

/// The column by which the station's lines of one table are in order.
const ORDINAL: usize = 2;

/// Where the row begins, of whatever table it is.
pub(crate) const ROW_AT: usize = ORDINAL + 1;

/// The columns of a line of a bicycle.
const BIKE: usize = ROW_AT + bikes::BIKE;

const TYPE_ID: usize = ROW_AT + bikes::TYPE_ID;

const STATE: usize = ROW_AT + bikes::STATE;

/// The first column of its place, which names a station.
const PLACE: usize = ROW_AT + bikes::STATION_ID;

const DOCK: usize = ROW_AT + bikes::DOCK;

const RENTAL: usize = ROW_AT + bikes::RENTAL;

const TRUCK: usize = ROW_AT + bikes::TRUCK;

const ORDER: usize = ROW_AT + bikes::ORD;

/// How many columns a line has at least that holds a bicycle.
const COLUMNS: usize = ROW_AT + bikes::COLUMNS;

/// Whether the line is of the table of that place.
pub(crate) fn is_of(line: &Row, place: u32) -> bool
    ensures { result ≡ is_place place (column line.now 1) }
{
    match line.get_ref(TABLE) {
        Ok(ValueRef::Int(n)) => n == i64::from(place),
        _ => false,
    }
}

/// The line that a stretch begins with, which has a first column.
#[derive(Drop)]
pub(crate) struct HeadLine {
    line: Row,
}

impl Model for HeadLine {
    ghost use Rattle.std.specs.Prelude.{length, ◌≤◌};
    ghost use Rattle.sqlite_value.specs.Order.{Row};

    ghost Value = { Row };

    ghost view = { λ a. a.line };

    ghost invariant = { λ a. 1 ≤ length a.line };
}

impl HeadLine {
    /// A copy of the line. It is an error where memory is refused, or the line has no column.
    pub(crate) fn of(line: &Row) -> Result<HeadLine, StatementFault>
        ensures { IfOk result (λ head. head ≡ line.now) }
    {
        if line.column_count() == 0 {
            return Err(StatementFault::StoreFailed);
        }
        Ok(HeadLine { line: line.copy()? })
    }

    /// Whether the other line is of the same owner.
    pub(crate) fn owns(&self, line: &Row) -> bool
        ensures { result ≡ is_same_text (column line.now 0) (column self.now 0) }
    {
        match (line.get_ref(STATION), self.line.get_ref(STATION)) {
            (Ok(ValueRef::Text(other)), Ok(ValueRef::Text(owner))) => other == owner,
            _ => false,
        }
    }

    /// The key of its row.
    pub(crate) fn into_key(self) -> BadKey
        ensures { key_row result ≡ column self 0 ∷ [] }
    {
        BadKey::Columns(self.line, 1)
    }
}

/// The text, where it is UTF-8.
fn text_in(line: &Row, at: usize) -> Option<&str>
    ensures { option_map (λ text. text.now) result ≡ text_in (column line.now at) }
{
    let Ok(ValueRef::Text(bytes)) = line.get_ref(at) else {
        return None;
    };
    match str::from_utf8(bytes) {
        Ok(text) => Some(text),
        Err(_) => None,
    }
}

/// The identifier.
fn ident_in(line: &Row, at: usize) -> Option<&str>
    ensures { option_map (λ text. text.now) result ≡ ident_in (column line.now at) }
{
    Ident::checked(text_in(line, at)?)
}

/// The state of a bicycle.
fn state_in(line: &Row, at: usize) -> Option<BikeState>
    ensures { result ≡ state_in (column line.now at) }
{
    match state_at(line, at) {
        Ok(state) => Some(state),
        Err(_) => None,
    }
}

/// Whether the columns of a rental, a truck and an order are each NULL or keep their bounds.
fn keep_bounds(line: &Row) -> bool
    ensures { result ≡ keep_bounds (column line.now RENTAL) (column line.now TRUCK) (column line.now ORDER) }
{
    let rental: Result<Option<RentalNumber>, StatementFault> = optional_number_at(line, RENTAL);
    let truck: Result<Option<TruckNumber>, StatementFault> = optional_number_at(line, TRUCK);
    let order: Result<Option<OrderNumber>, StatementFault> = optional_number_at(line, ORDER);
    rental.is_ok() && truck.is_ok() && order.is_ok()
}

/// The dock that the columns of a place name first.
fn dock_named(line: &Row) -> Option<DockNumber>
    ensures { result ≡ dock_named (column line.now PLACE) (column line.now DOCK)
        (column line.now RENTAL) (column line.now TRUCK) (column line.now ORDER) }
{
    if ident_in(line, PLACE).is_none() || !keep_bounds(line) {
        return None;
    }
    match number_at(line, DOCK) {
        Ok(dock) => Some(dock),
        Err(_) => None,
    }
}

/// A bicycle in a dock.
#[derive(Clone, Copy)]
pub(crate) struct DockedBike<'a> {
    pub(crate) dock: DockNumber,
    pub(crate) type_id: &'a str,
    /// Whether it can be rented where its dock works.
    pub(crate) is_fit: bool,
}

/// Whether a bicycle of that state can be rented where its dock works.
fn is_fit(state: BikeState) -> bool
    ensures { result ≡ is_fit state }
{
    match state {
        BikeState::Fit => true,
        BikeState::Disabled | BikeState::Retired => false,
    }
}

/// Whether the line has the columns of a bicycle from the fourth on, of which the first is its number.
fn has_bike(line: &Row) -> bool
    ensures { result ≡ (nat_le (ROW_AT + bikes.COLUMNS) (length line.now)
        && is_some (numbered_in (column line.now BIKE))) }
{
    let bike: Result<BicycleNumber, StatementFault> = number_at(line, BIKE);
    COLUMNS <= line.column_count() && bike.is_ok()
}

/// The bicycle in the columns of a line from the fourth on, where they name a dock that it is in.
fn docked_in_columns(line: &Row) -> Option<DockedBike<'_>>
    ensures { option_map docked_of result ≡ docked_columns line.now }
{
    if !has_bike(line) {
        return None;
    }
    let type_id = ident_in(line, TYPE_ID)?;
    let state = state_in(line, STATE)?;
    let dock = dock_named(line)?;
    Some(DockedBike {
        dock,
        type_id,
        is_fit: is_fit(state),
    })
}

/// The bicycle of the line, where it is in a dock: its row stands from the fourth column on.
#[tactic(auto, using(crate::proofs::DockedRows::docked_is))]
pub(crate) fn docked_bike(line: &Row) -> Option<DockedBike<'_>>
    ensures { option_map docked_of result ≡ docked_in (part ROW_AT bikes.COLUMNS line.now) }
{
    docked_in_columns(line)
}
