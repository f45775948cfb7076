//! The bounds of a local day.

ghost use Rattle.std.specs.Prelude.{◌≡◌, ℤ, pos, ◌*ℤ◌, ◌+ℤ◌, ◌+◌, ◌-◌, ◌*◌, ◌≤◌, ◌<ℤ◌, MatchOption, true, false, IfOk};
ghost use Rattle.std.specs.Prelude.{IfSome, IfNone, Err, ◌&&◌, [], ◌∷◌};
ghost use Rattle.jiff.specs.Words.{epoch_day, plain_zone, IsDate, IsYmd};
ghost use Rattle.bike_fixed.specs.Day.{BeginsAt, BeginsBefore1970, IsCovered, HasBounds, HasBadZone, IsInYears};
ghost use Rattle.bike_fixed.specs.Day.{IsOutOfYears, IsOutOfRange, IsNamed, NamesDate, date_parts, is_digit};
ghost use Rattle.bike_fixed.specs.Day.{pair_value};

use crate::moment::Moment;
use jiff::civil::{Date, Time};
use jiff::tz::{Disambiguation, TimeZone};

/// Why a day has no bounds; of several reasons the first in this order.
#[derive(Debug, Clone, Copy, PartialEq, Eq, Drop)]
pub enum DayFault {
    /// The date isn't `YYYY-MM-DD` in ASCII digits, or the calendar has no such date.
    BadDate,
    /// The zone isn't a POSIX zone.
    BadZone,
    /// The year is before 1970 or is 9999, or a bound lies before 1970-01-01T00:00:00Z.
    OutOfRange,
    /// Memory was refused.
    NoMemory,
}

/// The moment at which a date begins in the zone, unless it lies before 1970-01-01T00:00:00Z.
fn begin_of(date: Date, zone: &TimeZone<'_>) -> Option<Moment>
    requires { IsCovered (epoch_day date) }
    ensures begins { IfSome result
        (λ moment. BeginsAt (plain_zone zone.now) (epoch_day date) (pos moment *ℤ pos 1_000_000_000)) }
    ensures before { IfNone result (BeginsBefore1970 (plain_zone zone.now) (epoch_day date)) }
{
    let midnight = date.to_datetime(Time::midnight());
    let instant = zone
        .to_ambiguous_timestamp(midnight)
        .disambiguate(Disambiguation::Compatible)
        .ok()?;
    let nanos = instant.as_nanosecond();
    if nanos < 0 {
        return None;
    }
    Moment::new((nanos.unsigned_abs() / 1_000_000_000) as u64)
}

/// A digit's number.
fn digit(byte: u8) -> Option<u8>
    ensures { MatchOption result (is_digit byte ≡ false) (λ n. (is_digit byte ≡ true) × (n ≡ byte - 48)) }
{
    match byte {
        b'0'..=b'9' => Some(byte - b'0'),
        _ => None,
    }
}

/// The number of two digits.
fn pair(digits: (u8, u8)) -> Option<u8>
    ensures none { IfNone result (is_digit digits.0 && is_digit digits.1 ≡ false) }
    ensures some { IfSome result
        (λ n. (is_digit digits.0 && is_digit digits.1 ≡ true) × (n ≡ pair_value digits.0 digits.1) × (n ≤ 99)) }
{
    let high = digit(digits.0)?;
    let low = digit(digits.1)?;
    Some(high * 10 + low)
}

/// The date of a century, a year of it, a month and a day.
fn date_of(century: u8, year: u8, month: u8, day: u8) -> Option<Date>
    // Each number has two digits at most.
    requires century { century ≤ 99 }
    requires year { year ≤ 99 }
    requires month { month ≤ 99 }
    requires day { day ≤ 99 }
    // The date of that year, month and day, or none where there is no such day.
    ensures some { IfSome result (IsYmd (pos (century * 100 + year)) (pos month) (pos day)) }
    ensures none { IfNone result (IsDate (pos (century * 100 + year)) (pos month) (pos day) → ⊥) }
{
    let year = i16::from(century) * 100 + i16::from(year);
    Date::new(year, month as i8, day as i8).ok()
}

/// The date that these pairs of digits spell.
fn date_of_pairs(century: (u8, u8), year: (u8, u8), month: (u8, u8), day: (u8, u8)) -> Option<Date>
    ensures some { IfSome result (IsNamed (date_parts
        (century.0 ∷ century.1 ∷ year.0 ∷ year.1 ∷ 45 ∷ month.0 ∷ month.1 ∷ 45 ∷ day.0 ∷ day.1 ∷ []))) }
    ensures none { IfNone result (NamesDate (date_parts
        (century.0 ∷ century.1 ∷ year.0 ∷ year.1 ∷ 45 ∷ month.0 ∷ month.1 ∷ 45 ∷ day.0 ∷ day.1 ∷ [])) → ⊥) }
{
    date_of(pair(century)?, pair(year)?, pair(month)?, pair(day)?)
}

/// The date that a text `YYYY-MM-DD` names.
fn read_date(text: &str) -> Option<Date>
    ensures some { IfSome result (IsNamed (date_parts text.now)) }
    ensures none { IfNone result (NamesDate (date_parts text.now) → ⊥) }
{
    let [a, b, c, d, b'-', e, f, b'-', g, h] = text.as_bytes() else {
        return None;
    };
    date_of_pairs((*a, *b), (*c, *d), (*e, *f), (*g, *h))
}

/// Whether the year is 1970 to 9998.
fn is_in_years(date: Date) -> bool
    ensures yes { result ≡ true → IsInYears date }
    ensures no { result ≡ false → IsOutOfYears date }
{
    let year = date.year();
    year >= 1970 && year < 9999
}

/// The moments at which a local date and the next one begin.
///
/// The date is `YYYY-MM-DD` of the proleptic Gregorian calendar, from 1970 to 9998; the zone is the text of
/// POSIX's `TZ` variable with its own rules, as `CET-1CEST,M3.5.0,M10.5.0/3`. A midnight that the clock skips
/// is moved forward by the gap, and of a midnight that it shows twice the earlier moment is taken. Memory is
/// never taken.
pub fn day_bounds(date: &str, zone: &str) -> Result<(Moment, Moment), DayFault>
    ensures bounds { IfOk result (λ b. HasBounds date.now zone.now b.0 b.1) }
    ensures bad_date { result ≡ Err DayFault.BadDate → NamesDate (date_parts date.now) → ⊥ }
    ensures bad_zone { result ≡ Err DayFault.BadZone → HasBadZone date.now zone.now }
    ensures out_of_range { result ≡ Err DayFault.OutOfRange → IsOutOfRange date.now zone.now }
    ensures memory { result ≡ Err DayFault.NoMemory → ⊥ }
{
    let Some(date) = read_date(date) else {
        return Err(DayFault::BadDate);
    };
    let Ok(zone) = TimeZone::posix(zone) else {
        return Err(DayFault::BadZone);
    };
    if !is_in_years(date) {
        return Err(DayFault::OutOfRange);
    }
    let Ok(next) = date.tomorrow() else {
        return Err(DayFault::OutOfRange);
    };
    let Some(begin) = begin_of(date, &zone) else {
        return Err(DayFault::OutOfRange);
    };
    let Some(end) = begin_of(next, &zone) else {
        return Err(DayFault::OutOfRange);
    };
    Ok((begin, end))
}
