//! A station's bicycles by type: a list of types with their counts, in byte order of the types.

ghost use Rattle.std.specs.Prelude.{◌≡◌, ◌≤◌, ◌+◌, ◌++◌, length, take, drop, OnOk};
ghost use Rattle.bike_book.specs.ByType.{counts_of, with_counts, with_first, are_none};
ghost use Rattle.bike_book.specs.declared.by_type.TypeCounts.{TypeCounts};

use bike_fields::Ident;
use std::alloc::AllocError;
use std::cmp::Ordering;

/// How many bicycles of a type stand at a station.
#[derive(Clone, Copy, Debug, PartialEq, Eq)]
pub struct TypeCounts {
    /// How many can be rented.
    pub available: u32,
    /// How many can't.
    pub disabled: u32,
}

/// A type with the counts of its bicycles at a station, which aren't both 0.
#[derive(Drop)]
pub struct CountedType {
    /// The type.
    pub type_id: Ident,
    /// Its bicycles there.
    pub counts: TypeCounts,
}

/// Where a type stands among others, or would stand: behind those before `from`, and before those from `to` on.
#[derive(Clone, Copy)]
pub struct TypePlace {
    pub from: usize,
    pub to: usize,
}

/// Whether there is no bicycle.
pub fn are_none(counts: TypeCounts) -> bool
    ensures { result ≡ are_none counts }
{
    counts.available == 0 && counts.disabled == 0
}

/// The counts of a type, 0 and 0 where it isn't among these.
pub fn counts_of(by_type: &[CountedType], type_id: &str) -> TypeCounts
    ensures { result ≡ counts_of type_id.now by_type.now }
{
    for counted in by_type {
        if counted.type_id.as_str() == type_id {
            return counted.counts;
        }
    }
    TypeCounts {
        available: 0,
        disabled: 0,
    }
}

/// The place of a type, which takes one of the list, or none where the type isn't in it.
pub fn place_of(by_type: &[CountedType], type_id: &Ident) -> TypePlace
    ensures bounds { (result.from ≤ result.to) × (result.to ≤ length by_type.now) }
    ensures one { result.to ≤ result.from + 1 }
    ensures sets { (counts : TypeCounts) → with_counts type_id.now counts by_type.now
        ≡ take result.from by_type.now ++ with_first type_id.now counts (drop result.to by_type.now) }
{
    let mut at = 0;
    while at < by_type.len() {
        match type_id.as_str().cmp(by_type[at].type_id.as_str()) {
            Ordering::Less => return TypePlace { from: at, to: at },
            Ordering::Equal => {
                return TypePlace {
                    from: at,
                    to: at + 1,
                };
            }
            Ordering::Greater => at += 1,
        }
    }
    TypePlace { from: at, to: at }
}

/// Sets the counts of a type, whose place is by the bytes of its identifier. An error is a want of memory.
pub fn set_counts(
    by_type: &mut Vec<CountedType>,
    type_id: Ident,
    counts: TypeCounts,
) -> Result<(), AllocError>
    ensures { OnOk result (by_type.new.items ≡ with_counts type_id counts by_type.old.items) }
{
    let place = place_of(by_type, &type_id);
    if place.from < place.to {
        by_type.remove(place.from);
    }
    if are_none(counts) {
        return Ok(());
    }
    by_type.insert(place.from, CountedType { type_id, counts })?;
    Ok(())
}
