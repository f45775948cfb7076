//! The members of a body, by name.

ghost use Rattle.std.specs.Prelude.{◌≡◌, IfOk, option_map};
ghost use Rattle.serde_json.specs.View.{view};
ghost use Rattle.bike_texts.specs.Reading.{side_of, choice_of};
ghost use Rattle.bike_http_request.specs.Members.{text_in, number_in, key_in, ident_in, choice_in, side_in};

use bike_fields::{Ident, RequestKey};
use bike_fixed::Within;
use bike_texts::Side;
use serde_json::Value;
use std::alloc::{AllocError, Global};

/// The member, where it is a string.
pub(crate) fn text_in<'v>(body: &'v Value, name: &str) -> Option<&'v str>
    ensures { option_map (λ text. text.now) result ≡ text_in name.now (view body.now) }
{
    body.get(name).and_then(Value::as_str)
}

/// The member, where it is a whole number without sign, fraction and exponent, and lies in the range.
#[tactic(auto, unfolding(crate::specs::Members::number_in))]
pub(crate) fn number_in<const LO: u32, const HI: u32, K>(
    body: &Value,
    name: &str,
) -> Option<Within<LO, HI, K>>
    ensures { result ≡ number_in LO HI name.now (view body.now) }
{
    let number = body.get(name).and_then(Value::as_u64)?;
    if number > u64::from(HI) {
        return None;
    }
    Within::new(number as u32)
}

/// The member, where it is a request key; an error is a want of memory.
#[tactic(auto, unfolding(crate::specs::Members::key_in))]
pub(crate) fn key_in(alloc: Global, body: &Value) -> Result<Option<RequestKey>, AllocError>
    ensures { IfOk result (λ o. o ≡ key_in (view body.now)) }
{
    let Some(text) = text_in(body, "key") else {
        return Ok(None);
    };
    RequestKey::read(alloc, text)
}

/// The member, where it is an identifier; an error is a want of memory.
#[tactic(auto, unfolding(crate::specs::Members::ident_in))]
pub(crate) fn ident_in(alloc: Global, body: &Value, name: &str) -> Result<Option<Ident>, AllocError>
    ensures { IfOk result (λ o. o ≡ ident_in name.now (view body.now)) }
{
    let Some(text) = text_in(body, name) else {
        return Ok(None);
    };
    Ident::read(alloc, text)
}

/// Which of two words the member is.
#[tactic(auto, unfolding(crate::specs::Members::choice_in, bike_texts::specs::Reading::choice_of))]
pub(crate) fn choice_in(body: &Value, name: &str, word: &str, other: &str) -> Option<bool>
    ensures { result ≡ choice_in word.now other.now name.now (view body.now) }
{
    let text = text_in(body, name)?;
    if text == word {
        return Some(true);
    }
    if text == other {
        return Some(false);
    }
    None
}

/// The end of an order that the member names.
#[tactic(auto, unfolding(crate::specs::Members::side_in, bike_texts::specs::Reading::side_of))]
pub(crate) fn side_in(body: &Value, name: &str) -> Option<Side>
    ensures { result ≡ side_in name.now (view body.now) }
{
    let text = text_in(body, name)?;
    match text {
        "from" => Some(Side::From),
        "to" => Some(Side::To),
        _ => None,
    }
}
