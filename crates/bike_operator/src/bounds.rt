//! Whether a decision can be made on a view: what it needs of the numbers in it.

ghost use Rattle.std.specs.Prelude.{IsTrue, IfSome, IfNone, ◌↔◌, ◌≡◌, ◌<◌, ◌≤◌, ◌+◌, true, false};
ghost use Rattle.bike_ledger.specs.Ledger.{IsBalance};
ghost use Rattle.bike_operator.specs.Bounds.{IsChargeable, IsRefundable, IsBounded};
ghost use Rattle.bike_operator.specs.Counts.{is_open};

use crate::limits::MOST_ENTRIES;
use crate::records::Closing;
use crate::view::{RentalView, View};
use bike_fixed::Moment;
use bike_ledger::is_balance;

/// Whether one more rental has a number, where the ledger isn't full.
fn has_rental_number(view: &View) -> bool
    ensures { IsTrue result ↔ (view.now.is_ledger_full ≡ false → view.now.rentals < MOST_ENTRIES) }
{
    view.is_ledger_full || view.rentals < MOST_ENTRIES
}

/// Whether the rider's balance takes one more entry, where the ledger isn't full.
fn is_rider_bounded(view: &View) -> bool
    ensures { IsTrue result ↔ (view.now.is_ledger_full ≡ false → IfSome view.now.rider (λ r. IsBalance r.balance)) }
{
    match &view.rider {
        Some(rider) => view.is_ledger_full || is_balance(rider.balance),
        None => true,
    }
}

/// Whether an open rental began by now and its fare can be booked.
fn is_chargeable(entries: u32, now: Moment, row: &RentalView) -> bool
    ensures { IsTrue result ↔ IsChargeable entries now row.now }
{
    row.rental.start <= now && entries < MOST_ENTRIES && is_balance(row.balance)
}

/// Whether refunds lie within the fare, and where there is room for an entry, one more can be booked.
fn is_refundable(entries: u32, row: &RentalView, closing: &Closing) -> bool
    ensures { IsTrue result ↔ IsRefundable entries row.now closing.now.fare }
{
    let refunded = row.refunded.hundredths();
    0 <= refunded
        && refunded <= closing.fare.hundredths()
        && (entries >= MOST_ENTRIES || is_balance(row.balance))
}

/// Whether the fare of an open rental can be booked now.
fn is_charge_bounded(view: &View, now: Moment) -> bool
    ensures { IsTrue result
        ↔ IfSome view.now.rental (λ r. IfNone r.rental.closing (IsChargeable view.now.entries now r)) }
{
    match &view.rental {
        Some(row) => row.rental.closing.is_some() || is_chargeable(view.entries, now, row),
        None => true,
    }
}

/// Whether refunds of a closed rental can be booked.
fn is_refund_bounded(view: &View) -> bool
    ensures { IsTrue result
        ↔ IfSome view.now.rental (λ r. IfSome r.rental.closing (λ c. IsRefundable view.now.entries r c.fare)) }
{
    let Some(row) = &view.rental else {
        return true;
    };
    match &row.rental.closing {
        Some(closing) => is_refundable(view.entries, row, closing),
        None => true,
    }
}

/// Whether the rental that ends at a station is open.
fn is_end_bounded(view: &View) -> bool
    ensures { IsTrue result ↔ IfSome view.now.station (λ x. IfSome view.now.rental (λ r. is_open r.rental ≡ true)) }
{
    match (&view.station, &view.rental) {
        (Some(_), Some(row)) => row.rental.closing.is_none(),
        _ => true,
    }
}

/// Whether the order asks for as many bicycles as were delivered and are on the truck, or for more.
fn is_load_bounded(view: &View) -> bool
    ensures { IsTrue result ↔ IfSome view.now.order (λ o. o.delivered + view.now.on_truck ≤ o.count) }
{
    let Some(order) = &view.order else {
        return true;
    };
    let count = order.count.get();
    view.on_truck <= count && order.delivered <= count - view.on_truck
}

/// Whether a decision can be made on the view at the moment, as on each view of a sound operator.
pub fn is_bounded(view: &View, now: Moment) -> bool
    ensures { IsTrue result ↔ IsBounded view.now now }
{
    has_rental_number(view)
        && is_rider_bounded(view)
        && is_charge_bounded(view, now)
        && is_refund_bounded(view)
        && is_end_bounded(view)
        && is_load_bounded(view)
}
