//! The values that one part of a text spells.

ghost use Rattle.std.specs.Prelude.{◌≡◌, true, IfSome, option_map};
ghost use Rattle.bike_fields.specs.Values.{is_range};
ghost use Rattle.bike_fields.specs.Bytes.{is_ident};
ghost use Rattle.bike_texts.specs.Reading.{HasIdent, degrees_of, is_of_size, metres_of, choice_of, side_of, end_of};
ghost use Rattle.bike_texts.specs.Reading.{end_meant, ident_or_none_of};
ghost use Rattle.bike_fields.specs.Reads.{Gives};

use crate::ends::{EndName, Side};
use bike_fields::{GREATEST_RANGE, Ident, MaxRange, Propulsion};
use bike_fixed::Micro;

/// The coordinate that the text spells, where its size is at most `greatest` microdegrees.
#[tactic(auto, unfolding(crate::specs::Reading::degrees_of))]
pub fn read_degrees(text: &str, greatest: u32) -> Option<Micro>
    ensures read { result ≡ degrees_of greatest text.now }
    ensures good { IfSome result (λ z. is_of_size greatest z ≡ true) }
{
    let micro = Micro::read(text)?;
    if micro.microdegrees().unsigned_abs() <= greatest {
        return Some(micro);
    }
    None
}

/// Whether a greatest range in metres goes with the propulsion.
fn is_range(propulsion: Propulsion, metres: u32) -> bool
    ensures { result ≡ is_range propulsion metres }
{
    match propulsion {
        Propulsion::Human => metres == 0,
        Propulsion::ElectricAssist => 1 <= metres && metres <= GREATEST_RANGE,
    }
}

/// The greatest range in metres that the text spells, where it goes with the propulsion.
#[tactic(auto, unfolding(crate::specs::Reading::metres_of))]
pub fn read_metres(text: &str, propulsion: Propulsion) -> Option<MaxRange>
    ensures read { result ≡ metres_of propulsion text.now }
    ensures good { IfSome result (λ n. is_range propulsion n ≡ true) }
{
    let metres = MaxRange::read(text)?;
    if is_range(propulsion, metres.get()) {
        return Some(metres);
    }
    None
}

/// Which of two words the text is.
#[tactic(auto, unfolding(crate::specs::Reading::choice_of))]
pub fn read_choice(text: &str, word: &str, other: &str) -> Option<bool>
    ensures { result ≡ choice_of word.now other.now text.now }
{
    if text == word {
        return Some(true);
    }
    if text == other {
        return Some(false);
    }
    None
}

/// The end of an order that the text names, `from` or `to`.
#[tactic(auto, unfolding(crate::specs::Reading::side_of))]
pub fn read_side(text: &str) -> Option<Side>
    ensures { result ≡ side_of text.now }
{
    match text {
        "from" => Some(Side::From),
        "to" => Some(Side::To),
        _ => None,
    }
}

/// None, written `*`, or the identifier.
#[tactic(auto, unfolding(crate::specs::Reading::ident_or_none_of))]
pub fn read_ident_or_none(text: &str) -> Option<Option<&str>>
    ensures read { Gives (λ name. option_map (λ id. id.now) name) result (ident_or_none_of text.now) }
    ensures good { IfSome result (λ name. IfSome name (λ id. is_ident id.now ≡ true)) }
{
    if text == "*" {
        return Some(None);
    }
    Some(Some(Ident::checked(text)?))
}

/// The depot, written `*`, or the station of that identifier.
#[tactic(auto, unfolding(crate::specs::Reading::end_of))]
pub fn read_order_end<'a>(text: &'a str) -> Option<EndName<'a>>
    ensures read { Gives end_meant result (end_of text.now) }
    ensures good { IfSome result HasIdent }
{
    if text == "*" {
        return Some(EndName::Depot);
    }
    Some(EndName::Station(Ident::checked(text)?))
}
