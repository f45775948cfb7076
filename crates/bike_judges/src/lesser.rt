//! The lesser of two keys.

ghost use Rattle.std.specs.Prelude.{◌≡◌, length, Option, option_map};
ghost use Rattle.sqlite_value.specs.Order.{column, row_cmp};
ghost use Rattle.sqlite_value.specs.Value.{owned};
ghost use Rattle.bike_judges.specs.Judging.{key_row};
ghost use Rattle.bike_judges.specs.Least.{least_key};

use crate::key::BadKey;
use sqlite_value::order::compare;
use sqlite_value::value::ValueRef;
use std::cmp::Ordering;

/// How many columns the key has.
fn width(key: &BadKey) -> usize
    ensures { result ≡ length (key_row key.now) }
{
    match key {
        BadKey::Number(_) | BadKey::Named(_) => 1,
        BadKey::Columns(row, keys) => row.column_count().min(*keys),
        BadKey::Paired(_, _) => 2,
    }
}

/// The key's value in a column, and NULL past its end.
fn entry(key: &BadKey, at: usize) -> ValueRef<'_>
    ensures { owned result ≡ column (key_row key.now) at }
{
    match (key, at) {
        (BadKey::Number(number), 0) => ValueRef::Int(*number),
        (BadKey::Columns(row, keys), _) if at < *keys => row.get_ref(at).unwrap_or(ValueRef::Null),
        (BadKey::Named(text), 0) => ValueRef::Text(text.as_str().as_bytes()),
        (BadKey::Paired(first, _), 0) => ValueRef::Text(first.as_str().as_bytes()),
        (BadKey::Paired(_, second), 1) => ValueRef::Text(second.as_str().as_bytes()),
        _ => ValueRef::Null,
    }
}

/// The order of the keys as rows have them.
fn compare_keys(a: &BadKey, b: &BadKey) -> Ordering
    ensures { result ≡ row_cmp (key_row a.now) (key_row b.now) }
{
    let wide = width(a);
    let other = width(b);
    for at in 0..wide.min(other) {
        match compare(entry(a, at), entry(b, at)) {
            Ordering::Equal => {}
            found => return found,
        }
    }
    wide.cmp(&other)
}

/// The lesser of two keys, or the one that is there.
pub fn least(a: Option<BadKey>, b: Option<BadKey>) -> Option<BadKey>
    ensures { option_map key_row result ≡ least_key (option_map key_row a) (option_map key_row b) }
{
    match (a, b) {
        (None, b) => b,
        (a, None) => a,
        (Some(a), Some(b)) => match compare_keys(&b, &a) {
            Ordering::Less => Some(b),
            _ => Some(a),
        },
    }
}
