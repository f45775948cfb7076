//! Riders, bicycles, rentals and orders as JSON.

ghost use Rattle.std.specs.Prelude.{◌≡◌, ◌<◌, ◌++◌, IsTrue, length, map, pos};
ghost use Rattle.bike_json.specs.State.{WroteNext, IsAt, takes_value, after_value};
ghost use Rattle.bike_json.specs.Tree.{text_of};
ghost use Rattle.bike_http_response.specs.Bodies.{rider_state, open_rental, rider_tree};
ghost use Rattle.bike_http_response.specs.Bodies.{state_name, bike_tree, ended_at};
ghost use Rattle.bike_http_response.specs.Bodies.{closed_members, members, rental_object};
ghost use Rattle.bike_http_response.specs.Bodies.{rental_tree, scalar_tree, end_name};
ghost use Rattle.bike_http_response.specs.Bodies.{order_tree};

use crate::answer::RiderRow;
use crate::members::{Scalar, signed, whole, write_object};
use bike_fields::{BicycleNumber, Ident, OrderNumber, RentalNumber};
use bike_fixed::Cents;
use bike_json::{JsonState, MemberName, Output, member};
use bike_operator::{Bike, BikeState, Order, Place, RentalInfo};
use bike_texts::OrderEnd;

fn rider_state(blocked: bool) -> &'static str
    ensures { result.now ≡ rider_state blocked }
{
    if blocked { "blocked" } else { "open" }
}

fn open_rental(rental: Option<RentalNumber>) -> Scalar<'static>
    ensures { result ≡ Scalar.Whole (pos (open_rental rental)) }
{
    match rental {
        None => Scalar::Whole(0),
        Some(rental) => whole(rental),
    }
}

pub(crate) fn write_rider<W: Output>(json: &mut JsonState, out: &mut W, row: &RiderRow)
    requires value { IsTrue (takes_value json.old.top) }
    requires room { length json.old.round < 16 }
    ensures wrote { WroteNext json.old json.new (W.contents out.old) (W.contents out.new)
        (text_of (rider_tree row.now)) }
    ensures place { IsAt json.new (after_value json.old.top) json.old.round }
{
    write_object(
        json,
        out,
        &[
            (member!("rider"), whole(row.rider)),
            (member!("state"), Scalar::Text(rider_state(row.blocked))),
            (member!("balance_cents"), signed(row.balance.hundredths())),
            (member!("rental"), open_rental(row.rental)),
        ],
        &[],
    );
}

fn state_name(state: BikeState) -> &'static str
    ensures { result.now ≡ state_name state }
{
    match state {
        BikeState::Fit => "fit",
        BikeState::Disabled => "disabled",
        BikeState::Retired => "retired",
    }
}

pub(crate) fn write_bike<W: Output>(
    json: &mut JsonState,
    out: &mut W,
    number: BicycleNumber,
    bike: &Bike,
)
    requires value { IsTrue (takes_value json.old.top) }
    requires room { length json.old.round < 16 }
    ensures wrote { WroteNext json.old json.new (W.contents out.old) (W.contents out.new)
        (text_of (bike_tree number bike.now)) }
    ensures place { IsAt json.new (after_value json.old.top) json.old.round }
{
    let members = [
        (member!("bike"), whole(number)),
        (member!("type"), Scalar::Text(bike.type_id.as_str())),
        (member!("state"), Scalar::Text(state_name(bike.state))),
    ];
    match &bike.place {
        Place::Dock { station, dock } => write_object(
            json,
            out,
            &members,
            &[
                (member!("place"), Scalar::Text("dock")),
                (member!("station"), Scalar::Text(station.as_str())),
                (member!("dock"), whole(*dock)),
            ],
        ),
        Place::Rental { rental } => write_object(
            json,
            out,
            &members,
            &[
                (member!("place"), Scalar::Text("rental")),
                (member!("rental"), whole(*rental)),
            ],
        ),
        Place::Truck { truck, order } => write_object(
            json,
            out,
            &members,
            &[
                (member!("place"), Scalar::Text("truck")),
                (member!("truck"), whole(*truck)),
                (member!("order"), whole(*order)),
            ],
        ),
        Place::Depot => {
            write_object(
                json,
                out,
                &members,
                &[(member!("place"), Scalar::Text("depot"))],
            )
        }
    }
}

fn ended_at(station: &Option<Ident>) -> &str
    ensures { result.now ≡ ended_at station.now }
{
    match station {
        None => "*",
        Some(station) => station.as_str(),
    }
}

/// The members of a closing: to which station, when, for which fare and with which refunds.
fn closed_members<'a>(
    to: &'a str,
    finish: &'a str,
    fare: Cents,
    refunded: Cents,
) -> [(MemberName, Scalar<'a>); 5]
    ensures { members (map (λ m. (m.0.plain.now, scalar_tree m.1)) result)
        ≡ closed_members to.now finish.now fare refunded }
{
    [
        (member!("is_open"), Scalar::Flag(false)),
        (member!("to"), Scalar::Text(to)),
        (member!("end"), Scalar::Text(finish)),
        (member!("fare_cents"), signed(fare.hundredths())),
        (member!("refunded_cents"), signed(refunded.hundredths())),
    ]
}

/// Writes a rental, of whose closing these are the members.
fn write_rental_with<'a, W: Output>(
    json: &mut JsonState,
    out: &mut W,
    number: RentalNumber,
    rental: &'a RentalInfo,
    start: &'a str,
    closing: &[(MemberName, Scalar)],
)
    requires value { IsTrue (takes_value json.old.top) }
    requires room { length json.old.round < 16 }
    ensures wrote { WroteNext json.old json.new (W.contents out.old) (W.contents out.new)
        (text_of (rental_object number rental.now start.now
        (members (map (λ m. (m.0.plain.now, scalar_tree m.1)) closing.now)))) }
    ensures place { IsAt json.new (after_value json.old.top) json.old.round }
{
    write_object(
        json,
        out,
        &[
            (member!("rental"), whole(number)),
            (member!("rider"), whole(rental.rider)),
            (member!("bike"), whole(rental.bike)),
            (member!("plan"), Scalar::Text(rental.plan.as_str())),
            (member!("from"), Scalar::Text(rental.from_station.as_str())),
            (member!("start"), Scalar::Text(start)),
        ],
        closing,
    );
}

pub(crate) fn write_rental<W: Output>(
    json: &mut JsonState,
    out: &mut W,
    number: RentalNumber,
    rental: &RentalInfo,
)
    requires value { IsTrue (takes_value json.old.top) }
    requires room { length json.old.round < 16 }
    ensures wrote { WroteNext json.old json.new (W.contents out.old) (W.contents out.new)
        (text_of (rental_tree number rental.now)) }
    ensures place { IsAt json.new (after_value json.old.top) json.old.round }
{
    let start = rental.start.text();
    match &rental.closing {
        None => {
            let open = [(member!("is_open"), Scalar::Flag(true))];
            write_rental_with(json, out, number, rental, start.as_str(), &open);
        }
        Some(closing) => {
            let finish = closing.finish.text();
            let to = ended_at(&closing.to_station);
            let closed = closed_members(to, finish.as_str(), closing.fare, closing.refunded);
            write_rental_with(json, out, number, rental, start.as_str(), &closed);
        }
    }
}

fn end_name(end: &OrderEnd) -> &str
    ensures { result.now ≡ end_name end.now }
{
    match end {
        OrderEnd::Depot => "*",
        OrderEnd::Station(station) => station.as_str(),
    }
}

pub(crate) fn write_order<W: Output>(
    json: &mut JsonState,
    out: &mut W,
    number: OrderNumber,
    order: &Order,
)
    requires value { IsTrue (takes_value json.old.top) }
    requires room { length json.old.round < 16 }
    ensures wrote { WroteNext json.old json.new (W.contents out.old) (W.contents out.new)
        (text_of (order_tree number order.now)) }
    ensures place { IsAt json.new (after_value json.old.top) json.old.round }
{
    write_object(
        json,
        out,
        &[
            (member!("order"), whole(number)),
            (member!("truck"), whole(order.truck)),
            (member!("from"), Scalar::Text(end_name(&order.from_end))),
            (member!("to"), Scalar::Text(end_name(&order.to_end))),
            (member!("type"), Scalar::Text(order.type_id.as_str())),
            (member!("count"), whole(order.count)),
            (
                member!("delivered"),
                Scalar::Whole(i64::from(order.delivered)),
            ),
            (member!("is_open"), Scalar::Flag(order.is_open)),
        ],
        &[],
    );
}
