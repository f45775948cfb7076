//! What is answered, and with which status.

ghost use Rattle.std.specs.Prelude.{◌≡◌};
ghost use Rattle.bike_http_response.specs.Status.{status_of, refused_status, allow_of};

use crate::status::Status;
use bike_commands::{Refusal, Reply};
use bike_fields::{BicycleNumber, OrderNumber, RentalNumber, RiderNumber};
use bike_fixed::Cents;
use bike_http_head::{Allow, Rejection};
use bike_operator::{Bike, Order, RentalInfo, RequestPage};

/// A rider, as it is shown.
#[derive(Clone, Copy)]
pub struct RiderRow {
    /// The rider's number.
    pub rider: RiderNumber,
    /// Whether the rider is blocked.
    pub blocked: bool,
    /// The balance in hundredths.
    pub balance: Cents,
    /// The open rental; none where there is none.
    pub rental: Option<RentalNumber>,
}

/// What is answered.
#[derive(Drop)]
pub enum Answer {
    /// The request is answered at once.
    Rejected(Rejection),
    /// Memory was refused, or the store failed.
    Unavailable,
    /// A request to act has this reply.
    Replied(Reply),
    /// A rider.
    Rider(RiderRow),
    /// A bicycle of that number.
    Bike(BicycleNumber, Bike),
    /// A rental of that number.
    Rental(RentalNumber, RentalInfo),
    /// An order of that number.
    Order(OrderNumber, Order),
    /// Accepted requests.
    Requests(RequestPage),
}

/// The status of a refusal: a bad field is a bad request, every other refusal a conflict.
fn refused_status(refusal: Refusal) -> Status
    ensures { result ≡ refused_status refusal }
{
    match refusal {
        Refusal::BadField => Status::BadRequest,
        _ => Status::Conflict,
    }
}

impl Answer {
    /// The status.
    pub fn status(&self) -> Status
        ensures { result ≡ status_of self.now }
    {
        match self {
            Answer::Rejected(Rejection::BadRequest | Rejection::BadField) => Status::BadRequest,
            Answer::Rejected(Rejection::NotFound) => Status::NotFound,
            Answer::Rejected(Rejection::MethodNotAllowed(_)) => Status::MethodNotAllowed,
            Answer::Rejected(Rejection::TooLarge) => Status::PayloadTooLarge,
            Answer::Unavailable => Status::ServiceUnavailable,
            Answer::Replied(Reply::Refused(refusal)) => refused_status(*refusal),
            Answer::Replied(_) => Status::Ok,
            Answer::Rider(_)
            | Answer::Bike(_, _)
            | Answer::Rental(_, _)
            | Answer::Order(_, _)
            | Answer::Requests(_) => Status::Ok,
        }
    }

    /// The method that the field `Allow` names; none where there is no such field.
    pub(crate) fn allow(&self) -> Option<Allow>
        ensures { result ≡ allow_of self.now }
    {
        match self {
            Answer::Rejected(Rejection::MethodNotAllowed(allow)) => Some(*allow),
            _ => None,
        }
    }
}
