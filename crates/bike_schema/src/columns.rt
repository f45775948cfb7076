//! Columns of a row as values of the product. A column past the end of the row reads as NULL.

ghost use Rattle.std.specs.Prelude.{◌≡◌, IfOk, IfErr, Some, None, Err, string_bytes};
ghost use Rattle.sqlite_value.specs.Order.{column};
ghost use Rattle.sqlite_sql.specs.Ops.{is_null};
ghost use Rattle.bike_schema.specs.declared.fault.StatementFault.TheVariants.{StoreFailed};
ghost use Rattle.bike_schema.specs.Columns.{number_of, moment_of, flag_of, state_of};
ghost use Rattle.bike_schema.specs.Columns.{or_none, read_or_failed, request_count_in};
ghost use Rattle.bike_schema.specs.Columns.{whole_in, number_in, moment_in, flag_in, state_in, text_in, ident_in};
ghost use Rattle.bike_schema.specs.Columns.{name_in, language_in};

use crate::fault::StatementFault;
use bike_book::RequestCount;
use bike_fields::{Ident, Language, Name};
use bike_fixed::{Cents, Moment, Within};
use bike_operator::BikeState;
use sqlite::Row;
use sqlite::types::ValueRef;
use std::alloc::Global;

/// The column as a whole number; any other column is `StoreFailed`.
fn whole_at(row: &Row, at: usize) -> Result<i64, StatementFault>
    ensures { result ≡ read_or_failed (whole_in (column row.now at)) }
{
    match row.get_ref(at) {
        Ok(ValueRef::Int(number)) => Ok(number),
        _ => Err(StatementFault::StoreFailed),
    }
}

/// The column as a text, which stays in its row; any other column is `StoreFailed`.
pub fn str_at(row: &Row, at: usize) -> Result<&str, StatementFault>
    ensures ok { IfOk result (λ text. text_in (column row.now at) ≡ Some text.now) }
    ensures failed { IfErr result (λ fault. (fault ≡ StoreFailed) × (text_in (column row.now at) ≡ None)) }
{
    let Ok(ValueRef::Text(bytes)) = row.get_ref(at) else {
        return Err(StatementFault::StoreFailed);
    };
    match str::from_utf8(bytes) {
        Ok(text) => Ok(text),
        Err(_) => Err(StatementFault::StoreFailed),
    }
}

/// Whether the column is NULL.
fn is_null_at(row: &Row, at: usize) -> bool
    ensures { result ≡ is_null (column row.now at) }
{
    matches!(row.get_ref(at), Ok(ValueRef::Null) | Err(_))
}

/// The number, where it lies from `LO` to `HI`.
fn number_of<const LO: u32, const HI: u32, K>(whole: i64) -> Option<Within<LO, HI, K>>
    ensures { result ≡ number_of LO HI whole }
{
    match u32::try_from(whole) {
        Ok(number) => Within::new(number),
        Err(_) => None,
    }
}

/// The moment so many seconds after 1970-01-01T00:00:00Z.
fn moment_of(whole: i64) -> Option<Moment>
    ensures { result ≡ moment_of whole }
{
    match u64::try_from(whole) {
        Ok(seconds) => Moment::new(seconds),
        Err(_) => None,
    }
}

/// The flag that 0 or 1 stands for.
fn flag_of(whole: i64) -> Option<bool>
    ensures { result ≡ flag_of whole }
{
    match whole {
        0 => Some(false),
        1 => Some(true),
        _ => None,
    }
}

/// The state that 0, 1 or 2 stands for.
fn state_of(whole: i64) -> Option<BikeState>
    ensures { result ≡ state_of whole }
{
    match whole {
        0 => Some(BikeState::Fit),
        1 => Some(BikeState::Disabled),
        2 => Some(BikeState::Retired),
        _ => None,
    }
}

/// The column as a number from `LO` to `HI`; any other column is `StoreFailed`.
pub fn number_at<const LO: u32, const HI: u32, K>(
    row: &Row,
    at: usize,
) -> Result<Within<LO, HI, K>, StatementFault>
    ensures { result ≡ read_or_failed (number_in LO HI (column row.now at)) }
{
    number_of(whole_at(row, at)?).ok_or(StatementFault::StoreFailed)
}

/// The column as a moment; any other column is `StoreFailed`.
pub fn moment_at(row: &Row, at: usize) -> Result<Moment, StatementFault>
    ensures { result ≡ read_or_failed (moment_in (column row.now at)) }
{
    moment_of(whole_at(row, at)?).ok_or(StatementFault::StoreFailed)
}

/// The column as the number of a request, or as how many there are; any other column is `StoreFailed`.
pub fn request_count_at(row: &Row, at: usize) -> Result<RequestCount, StatementFault>
    ensures { result ≡ read_or_failed (request_count_in (column row.now at)) }
{
    RequestCount::new(whole_at(row, at)?).ok_or(StatementFault::StoreFailed)
}

/// The column as an amount, in hundredths.
pub fn cents_at(row: &Row, at: usize) -> Result<Cents, StatementFault>
    ensures { result ≡ read_or_failed (whole_in (column row.now at)) }
{
    Ok(Cents::new(whole_at(row, at)?))
}

/// The column as a flag, which is stored as 0 or 1.
pub fn flag_at(row: &Row, at: usize) -> Result<bool, StatementFault>
    ensures { result ≡ read_or_failed (flag_in (column row.now at)) }
{
    flag_of(whole_at(row, at)?).ok_or(StatementFault::StoreFailed)
}

/// The column as a bicycle's state, which is stored as 0, 1 or 2.
pub fn state_at(row: &Row, at: usize) -> Result<BikeState, StatementFault>
    ensures { result ≡ read_or_failed (state_in (column row.now at)) }
{
    state_of(whole_at(row, at)?).ok_or(StatementFault::StoreFailed)
}

/// The column as a text; any other column is `StoreFailed`.
pub fn text_at(alloc: Global, row: &Row, at: usize) -> Result<String, StatementFault>
    ensures ok { IfOk result (λ text. text_in (column row.now at) ≡ Some (string_bytes text)) }
    ensures failed { result ≡ Err StoreFailed → text_in (column row.now at) ≡ None }
{
    Ok(String::from_str(alloc, str_at(row, at)?)?)
}

/// The column as an identifier.
pub fn ident_at(alloc: Global, row: &Row, at: usize) -> Result<Ident, StatementFault>
    ensures ok { IfOk result (λ ident. ident_in (column row.now at) ≡ Some ident) }
    ensures failed { result ≡ Err StoreFailed → ident_in (column row.now at) ≡ None }
{
    let text = str_at(row, at)?;
    Ident::read(alloc, text)?.ok_or(StatementFault::StoreFailed)
}

/// The column as a name.
pub fn name_at(alloc: Global, row: &Row, at: usize) -> Result<Name, StatementFault>
    ensures ok { IfOk result (λ name. name_in (column row.now at) ≡ Some name) }
    ensures failed { result ≡ Err StoreFailed → name_in (column row.now at) ≡ None }
{
    let text = str_at(row, at)?;
    Name::read(alloc, text)?.ok_or(StatementFault::StoreFailed)
}

/// The column as a language.
pub fn language_at(alloc: Global, row: &Row, at: usize) -> Result<Language, StatementFault>
    ensures ok { IfOk result (λ language. language_in (column row.now at) ≡ Some language) }
    ensures failed { result ≡ Err StoreFailed → language_in (column row.now at) ≡ None }
{
    let text = str_at(row, at)?;
    Language::read(alloc, text)?.ok_or(StatementFault::StoreFailed)
}

/// The column as a number from `LO` to `HI`, or `None` where it is NULL.
pub fn optional_number_at<const LO: u32, const HI: u32, K>(
    row: &Row,
    at: usize,
) -> Result<Option<Within<LO, HI, K>>, StatementFault>
    ensures { result ≡ read_or_failed (or_none (number_in LO HI) (column row.now at)) }
{
    if is_null_at(row, at) {
        return Ok(None);
    }
    Ok(Some(number_at(row, at)?))
}

/// The column as a moment, or `None` where it is NULL.
pub fn optional_moment_at(row: &Row, at: usize) -> Result<Option<Moment>, StatementFault>
    ensures { result ≡ read_or_failed (or_none moment_in (column row.now at)) }
{
    if is_null_at(row, at) {
        return Ok(None);
    }
    Ok(Some(moment_at(row, at)?))
}

/// The column as an amount, or `None` where it is NULL.
pub fn optional_cents_at(row: &Row, at: usize) -> Result<Option<Cents>, StatementFault>
    ensures { result ≡ read_or_failed (or_none whole_in (column row.now at)) }
{
    if is_null_at(row, at) {
        return Ok(None);
    }
    Ok(Some(cents_at(row, at)?))
}

/// The column as an identifier, or `None` where it is NULL.
pub fn optional_ident_at(
    alloc: Global,
    row: &Row,
    at: usize,
) -> Result<Option<Ident>, StatementFault>
    ensures ok { IfOk result (λ ident. or_none ident_in (column row.now at) ≡ Some ident) }
    ensures failed { result ≡ Err StoreFailed → or_none ident_in (column row.now at) ≡ None }
{
    if is_null_at(row, at) {
        return Ok(None);
    }
    Ok(Some(ident_at(alloc, row, at)?))
}
