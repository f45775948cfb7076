//! Values and the fields in which they stand: a type says how its values are read, and how they are written.

ghost use Rattle.std.specs.Prelude.{◌≡◌, ◌++◌, List, OnOk, Option, string_bytes};
ghost use Rattle.bike_texts.specs.Fields.{Field, fields_text};
ghost use Rattle.bike_texts.specs.Parts.{Parts};
ghost use Rattle.bike_texts.specs.Reading.{Takes};
ghost use Rattle.bike_requests.specs.Unread.{IsReading, IsTaken, all_at, passed};

use crate::unread::Unread;
use bike_texts::Fields;
use std::alloc::{AllocError, Global};

/// A value that stands in a text as a field, or as several.
pub trait Spelled: Drop {
    /// What is read of the parts, with those that are left.
    ghost read: { Parts → Option (Self × Parts) };
    /// The fields in which a value stands.
    ghost stands: { Self → List Field };

    /// Goes past the fields, where they spell a value; this needs no memory.
    fn pass(fields: &mut Fields) -> Option<()>
        ensures { Takes (λ nothing. nothing) result (passed (read fields.old)) fields.new };

    /// The value that the fields spell.
    fn take(alloc: Global, fields: &mut Fields) -> Result<Self, Unread>
        ensures { IsTaken (read fields.old) result fields.new };

    /// Appends the fields, each behind a TAB.
    fn put(&self, out: &mut String) -> Result<(), AllocError>
        ensures { OnOk result (string_bytes out.new ≡ string_bytes out.old ++ fields_text (stands self.now)) };
}

impl<A: Spelled, B: Spelled> Spelled for (A, B) {
    ghost use Rattle.std.specs.Prelude.{◌++◌};
    ghost use Rattle.bike_texts.specs.Kinds.{then_at};

    ghost read = { then_at A.read (λ _. B.read) };

    ghost stands = { λ both. A.stands both.0 ++ B.stands both.1 };

    fn pass(fields: &mut Fields) -> Option<()> {
        A::pass(fields)?;
        B::pass(fields)
    }

    fn take(alloc: Global, fields: &mut Fields) -> Result<(A, B), Unread> {
        let first = A::take(alloc, fields)?;
        let second = B::take(alloc, fields)?;
        Ok((first, second))
    }

    fn put(&self, out: &mut String) -> Result<(), AllocError> {
        self.0.put(out)?;
        self.1.put(out)
    }
}

/// The value that all fields spell. Memory is asked for only where they spell one.
pub fn read<T: Spelled>(alloc: Global, mut fields: Fields) -> Result<T, Unread>
    ensures { IsReading (all_at T.read fields.entry) result }
{
    let mut ahead = fields.again();
    T::pass(&mut ahead).ok_or(Unread::BadField)?;
    ahead.end().ok_or(Unread::BadField)?;
    T::take(alloc, &mut fields)
}

/// References to values that stand in a text one behind another.
pub trait FieldReferences {
    /// The fields in which the values stand.
    ghost written: { Self → List Field };

    /// Appends the fields, each behind a TAB.
    fn put_all(&self, out: &mut String) -> Result<(), AllocError>
        ensures { OnOk result (string_bytes out.new ≡ string_bytes out.old ++ fields_text (written self.now)) };
}

impl<T: Spelled> FieldReferences for &T {
    ghost written = { λ value. T.stands value.now };

    fn put_all(&self, out: &mut String) -> Result<(), AllocError> {
        T::put(*self, out)
    }
}

impl<A: FieldReferences, B: FieldReferences> FieldReferences for (A, B) {
    ghost use Rattle.std.specs.Prelude.{◌++◌};

    ghost written = { λ both. A.written both.0 ++ B.written both.1 };

    fn put_all(&self, out: &mut String) -> Result<(), AllocError> {
        self.0.put_all(out)?;
        self.1.put_all(out)
    }
}

/// Appends the word, and the fields behind it.
pub fn put<L: FieldReferences>(out: &mut String, word: &str, lent: &L) -> Result<(), AllocError>
    ensures { OnOk result (string_bytes out.new ≡ string_bytes out.old
        ++ (word.now ++ fields_text (L.written lent.now))) }
{
    out.push_str(word)?;
    lent.put_all(out)
}
