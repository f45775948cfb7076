//! Values of the product as their columns hold them.

ghost use Rattle.std.specs.Prelude.{◌≡◌, pos, option_map};
ghost use Rattle.bike_operator.specs.Changes.{text_in};
ghost use Rattle.bike_book.specs.Rows.{state_number, kind_number, end_text};

use bike_fields::Ident;
use bike_fixed::Moment;
use bike_ledger::EntryKind;
use bike_operator::BikeState;
use bike_texts::OrderEnd;

/// The seconds of a moment.
pub(crate) fn seconds_of(moment: Moment) -> i64
    ensures { result ≡ pos moment }
{
    moment.seconds() as i64
}

/// The number that stands for a state.
pub(crate) fn state_number(state: BikeState) -> i64
    ensures { result ≡ state_number state }
{
    match state {
        BikeState::Fit => 0,
        BikeState::Disabled => 1,
        BikeState::Retired => 2,
    }
}

/// The number that stands for a kind of entry.
pub(crate) fn kind_number(kind: EntryKind) -> i64
    ensures { result ≡ kind_number kind }
{
    match kind {
        EntryKind::TopUp => 1,
        EntryKind::Fare => 2,
        EntryKind::Refund => 3,
        EntryKind::Withdrawal => 4,
        EntryKind::Charge => 5,
        EntryKind::Credit => 6,
    }
}

/// The text of an end: a station's identifier, or `*`.
pub(crate) fn end_text(end: &OrderEnd) -> &str
    ensures { result.now ≡ end_text end.now }
{
    match end {
        OrderEnd::Depot => "*",
        OrderEnd::Station(station) => station.as_str(),
    }
}

/// The text of an identifier, if there is one.
pub(crate) fn text_in<'a>(ident: Option<&'a Ident>) -> Option<&'a str>
    ensures { option_map (λ text. text.now) result ≡ text_in ident.entry }
{
    match ident {
        Some(ident) => Some(ident.as_str()),
        None => None,
    }
}
