//! What is asked of an order with its partners beside it.

ghost use Rattle.std.specs.Prelude.{◌≡◌, IfOk};
ghost use Rattle.bike_judges.specs.Judging.{key_row};
ghost use Rattle.bike_readings.specs.Views.{end_of, order_of};
ghost use Rattle.bike_fleet_rules.specs.Tests.{first_key, order_names, order_ends};

use crate::key::number_key;
use crate::partners::{has_type, holds, is_end_there, is_same_end};
use bike_book::columns::{orders, stations, trucks};
use bike_judges::{BadKey, LineTest};
use bike_operator::MOST_ORDERS;
use bike_readings::{Part, read_order};
use bike_schema::StatementFault;
use sqlite::Row;

/// Where the row of an order stands in its line.
const ORDER_AT: usize = 0;

/// Where that of its truck stands, in a line with truck and type.
const TRUCK_AT: usize = ORDER_AT + orders::COLUMNS;

/// Where that of its type stands, in the same line.
const TYPE_AT: usize = TRUCK_AT + trucks::COLUMNS;

/// Where that of the station stands from which it goes, in a line with both ends.
const FROM_AT: usize = ORDER_AT + orders::COLUMNS;

/// Where that of the station stands to which it goes, in the same line.
const TO_AT: usize = FROM_AT + stations::COLUMNS;

/// Orders, each with its truck and its vehicle type.
#[derive(Debug, Drop)]
pub(crate) struct OrderNames;

/// Orders, each with the stations at its ends.
#[derive(Debug, Drop)]
pub(crate) struct OrderEnds;

/// Whether the order before which so many stand has the next number, and its truck and its type are there.
#[tactic(auto, unfolding(crate::specs::Tests::order_names))]
fn is_named(before: u64, line: &Row) -> bool
    ensures { result ≡ order_names before line.now }
{
    let Some(order) = read_order(Part::of(line, ORDER_AT, orders::COLUMNS)) else {
        return false;
    };
    before < u64::from(MOST_ORDERS)
        && u64::from(order.order.get()) == before + 1
        && holds(line, TRUCK_AT, order.count)
        && has_type(line, TYPE_AT)
}

/// Whether the order's ends are there, and are two.
#[tactic(auto, unfolding(crate::specs::Tests::order_ends))]
fn are_ends_there(before: u64, line: &Row) -> bool
    ensures { result ≡ order_ends before line.now }
{
    let Some(order) = read_order(Part::of(line, ORDER_AT, orders::COLUMNS)) else {
        return false;
    };
    is_end_there(order.from_end, line, FROM_AT)
        && is_end_there(order.to_end, line, TO_AT)
        && !is_same_end(order.from_end, order.to_end)
}

impl LineTest for OrderNames {
    ghost test = { λ _ before line. order_names before line };

    ghost key = { λ _ line. first_key line };

    fn is_good(&self, before: u64, line: &Row) -> Result<bool, StatementFault> {
        Ok(is_named(before, line))
    }

    fn bad_key(&self, line: &Row) -> Result<BadKey, StatementFault> {
        number_key(line)
    }
}

impl LineTest for OrderEnds {
    ghost test = { λ _ before line. order_ends before line };

    ghost key = { λ _ line. first_key line };

    fn is_good(&self, before: u64, line: &Row) -> Result<bool, StatementFault> {
        Ok(are_ends_there(before, line))
    }

    fn bad_key(&self, line: &Row) -> Result<BadKey, StatementFault> {
        number_key(line)
    }
}
