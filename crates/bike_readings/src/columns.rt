//! What single columns of a row spell. A column past the end of the row reads as NULL.

ghost use Rattle.std.specs.Prelude.{◌≡◌, option_map, codes, pos, neg_ℤ};
ghost use Rattle.sqlite_value.specs.Order.{column};
ghost use Rattle.sqlite_sql.specs.Ops.{is_null};
ghost use Rattle.bike_ledger.specs.Entries.{greatest_amount};
ghost use Rattle.bike_schema.specs.Columns.{whole_in, text_in, number_in, moment_in, flag_in, state_in, ident_in};
ghost use Rattle.bike_schema.specs.Columns.{name_in, or_none, request_count_in};
ghost use Rattle.bike_readings.specs.ColumnReaders.{ascii_in, language_in, currency_in, form_in, propulsion_in};
ghost use Rattle.bike_readings.specs.ColumnReaders.{named_kind_in, word_in, signed_in, kind_in};

use crate::part::Part;
use bike_book::RequestCount;
use bike_fields::{Ascii, Currency, Form, Ident, Language, Name, NameKind, Propulsion};
use bike_fixed::{Cents, Moment, Within};
use bike_ledger::EntryKind;
use bike_operator::BikeState;
use bike_schema::{cents_at, flag_at, moment_at, number_at, request_count_at, state_at};
use sqlite::types::ValueRef;

/// Whether the column is NULL.
pub(crate) fn is_null_at(part: &Part<'_>, at: usize) -> bool
    ensures { result ≡ is_null (column part.now at) }
{
    let (row, at) = part.column(at);
    matches!(row.get_ref(at), Ok(ValueRef::Null) | Err(_))
}

/// The number, where it lies from `LO` to `HI`.
#[tactic(auto, using(crate::proofs::ReadLemmas::read_some, crate::proofs::ReadLemmas::read_none))]
pub(crate) fn number_in<const LO: u32, const HI: u32, K>(
    part: &Part<'_>,
    at: usize,
) -> Option<Within<LO, HI, K>>
    ensures { result ≡ number_in LO HI (column part.now at) }
{
    let (row, at) = part.column(at);
    match number_at(row, at) {
        Ok(number) => Some(number),
        Err(_) => None,
    }
}

/// The moment, in seconds after 1970-01-01T00:00:00Z.
pub(crate) fn moment_in(part: &Part<'_>, at: usize) -> Option<Moment>
    ensures { result ≡ moment_in (column part.now at) }
{
    let (row, at) = part.column(at);
    match moment_at(row, at) {
        Ok(moment) => Some(moment),
        Err(_) => None,
    }
}

/// The number of a request.
pub(crate) fn request_count_in(part: &Part<'_>, at: usize) -> Option<RequestCount>
    ensures { result ≡ request_count_in (column part.now at) }
{
    let (row, at) = part.column(at);
    match request_count_at(row, at) {
        Ok(number) => Some(number),
        Err(_) => None,
    }
}

/// The amount, in hundredths.
pub(crate) fn cents_in(part: &Part<'_>, at: usize) -> Option<Cents>
    ensures { result ≡ whole_in (column part.now at) }
{
    let (row, at) = part.column(at);
    match cents_at(row, at) {
        Ok(amount) => Some(amount),
        Err(_) => None,
    }
}

/// The flag, stored as 0 or 1.
pub(crate) fn flag_in(part: &Part<'_>, at: usize) -> Option<bool>
    ensures { result ≡ flag_in (column part.now at) }
{
    let (row, at) = part.column(at);
    match flag_at(row, at) {
        Ok(flag) => Some(flag),
        Err(_) => None,
    }
}

/// The state of a bicycle, stored as 0, 1 or 2.
pub(crate) fn state_in(part: &Part<'_>, at: usize) -> Option<BikeState>
    ensures { result ≡ state_in (column part.now at) }
{
    let (row, at) = part.column(at);
    match state_at(row, at) {
        Ok(state) => Some(state),
        Err(_) => None,
    }
}

/// The whole number, where it lies from `lo` to `hi`.
pub(crate) fn signed_in(part: &Part<'_>, at: usize, lo: i64, hi: i64) -> Option<i64>
    ensures { result ≡ signed_in lo hi (column part.now at) }
{
    let number = cents_in(part, at)?.hundredths();
    if lo <= number && number <= hi {
        return Some(number);
    }
    None
}

/// The kind of an entry, stored as 1 to 6.
pub(crate) fn kind_in(part: &Part<'_>, at: usize) -> Option<EntryKind>
    ensures { result ≡ kind_in (column part.now at) }
{
    match cents_in(part, at)?.hundredths() {
        1 => Some(EntryKind::TopUp),
        2 => Some(EntryKind::Fare),
        3 => Some(EntryKind::Refund),
        4 => Some(EntryKind::Withdrawal),
        5 => Some(EntryKind::Charge),
        6 => Some(EntryKind::Credit),
        _ => None,
    }
}

/// The text, where it is UTF-8.
pub(crate) fn text_in<'a>(part: &Part<'a>, at: usize) -> Option<&'a str>
    ensures { option_map (λ text. text.now) result ≡ text_in (column part.now at) }
{
    let (row, at) = part.column(at);
    let Ok(ValueRef::Text(bytes)) = row.get_ref(at) else {
        return None;
    };
    match str::from_utf8(bytes) {
        Ok(text) => Some(text),
        Err(_) => None,
    }
}

/// The identifier.
pub(crate) fn ident_in<'a>(part: &Part<'a>, at: usize) -> Option<&'a str>
    ensures { option_map (λ text. text.now) result ≡ ident_in (column part.now at) }
{
    Ident::checked(text_in(part, at)?)
}

/// The identifier, or `Some(None)` where the column is NULL.
pub(crate) fn ident_or_none_in<'a>(part: &Part<'a>, at: usize) -> Option<Option<&'a str>>
    ensures { option_map (option_map (λ text. text.now)) result ≡ or_none ident_in (column part.now at) }
{
    if is_null_at(part, at) {
        return Some(None);
    }
    let id = ident_in(part, at)?;
    Some(Some(id))
}

/// The name.
pub(crate) fn name_in<'a>(part: &Part<'a>, at: usize) -> Option<&'a str>
    ensures { option_map (λ text. text.now) result ≡ name_in (column part.now at) }
{
    Name::checked(text_in(part, at)?)
}

/// The ASCII field.
pub(crate) fn ascii_in<'a>(part: &Part<'a>, at: usize) -> Option<&'a str>
    ensures { option_map (λ text. text.now) result ≡ ascii_in (column part.now at) }
{
    Ascii::checked(text_in(part, at)?)
}

/// The language.
pub(crate) fn language_in<'a>(part: &Part<'a>, at: usize) -> Option<&'a str>
    ensures { option_map (λ text. text.now) result ≡ language_in (column part.now at) }
{
    Language::checked(text_in(part, at)?)
}

/// The currency.
pub(crate) fn currency_in<'a>(part: &Part<'a>, at: usize) -> Option<&'a str>
    ensures { option_map (λ text. text.now) result ≡ currency_in (column part.now at) }
{
    Currency::checked(text_in(part, at)?)
}

/// The name of the product that made the file.
pub(crate) fn app_in<'a>(part: &Part<'a>, at: usize) -> Option<&'a str>
    ensures { option_map (λ text. text.now) result ≡ word_in (codes "bikeshare") (column part.now at) }
{
    let text = text_in(part, at)?;
    if text == "bikeshare" {
        return Some(text);
    }
    None
}

/// The form of a vehicle.
pub(crate) fn form_in(part: &Part<'_>, at: usize) -> Option<Form>
    ensures { result ≡ form_in (column part.now at) }
{
    let text = text_in(part, at)?;
    Form::read(text)
}

/// The propulsion of a vehicle.
pub(crate) fn propulsion_in(part: &Part<'_>, at: usize) -> Option<Propulsion>
    ensures { result ≡ propulsion_in (column part.now at) }
{
    let text = text_in(part, at)?;
    Propulsion::read(text)
}

/// The kind of what has a name in a further language.
pub(crate) fn named_kind_in(part: &Part<'_>, at: usize) -> Option<NameKind>
    ensures { result ≡ named_kind_in (column part.now at) }
{
    let text = text_in(part, at)?;
    NameKind::read(text)
}
