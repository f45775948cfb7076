//! The answers that show rows.

ghost use Rattle.std.specs.Prelude.{◌≡◌};
ghost use Rattle.bike_http.specs.Rows.{rider_answer, bike_answer, rental_answer, order_answer};

use bike_fields::{BicycleNumber, OrderNumber, RentalNumber, RiderNumber};
use bike_http_head::Rejection;
use bike_http_response::{Answer, RiderRow};
use bike_operator::{Bike, Order, RentalInfo};
use bike_queries::RiderInfo;

/// A rider, or that there is none of that number.
pub(crate) fn rider_answer(number: RiderNumber, found: Option<RiderInfo>) -> Answer
    ensures { result ≡ rider_answer number found }
{
    match found {
        Some(info) => Answer::Rider(RiderRow {
            rider: number,
            blocked: info.is_blocked,
            balance: info.balance,
            rental: info.rental,
        }),
        None => Answer::Rejected(Rejection::NotFound),
    }
}

/// A bicycle, or that there is none of that number.
pub(crate) fn bike_answer(number: BicycleNumber, found: Option<Bike>) -> Answer
    ensures { result ≡ bike_answer number found }
{
    match found {
        Some(bike) => Answer::Bike(number, bike),
        None => Answer::Rejected(Rejection::NotFound),
    }
}

/// A rental, or that there is none of that number.
pub(crate) fn rental_answer(number: RentalNumber, found: Option<RentalInfo>) -> Answer
    ensures { result ≡ rental_answer number found }
{
    match found {
        Some(rental) => Answer::Rental(number, rental),
        None => Answer::Rejected(Rejection::NotFound),
    }
}

/// An order, or that there is none of that number.
pub(crate) fn order_answer(number: OrderNumber, found: Option<Order>) -> Answer
    ensures { result ≡ order_answer number found }
{
    match found {
        Some(order) => Answer::Order(number, order),
        None => Answer::Rejected(Rejection::NotFound),
    }
}
