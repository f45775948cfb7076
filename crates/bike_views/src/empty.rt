//! The view of which nothing is read yet.

ghost use Rattle.std.specs.Prelude.{◌≡◌};
ghost use Rattle.bike_operator.specs.View.{empty_view as empty};

use bike_operator::View;

/// Nothing is there, and nothing is counted.
pub(crate) fn empty_view() -> View
    ensures { result ≡ empty }
{
    View {
        has_system: false,
        has_plan: false,
        has_type: false,
        has_region: false,
        has_named: false,
        has_language: false,
        is_own_language: false,
        has_from: false,
        has_to: false,
        has_rider: false,
        is_full: false,
        is_ledger_full: false,
        station: None,
        is_dock_broken: false,
        docked: None,
        bike: None,
        rental: None,
        rider: None,
        is_riding: false,
        truck: None,
        loaded: 0,
        order: None,
        on_truck: 0,
        rentals: 0,
        orders: 0,
        entries: 0,
    }
}
