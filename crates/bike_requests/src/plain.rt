//! The values that need no memory: each is spelled as it is found and written.

use crate::spelled::Spelled;
use crate::unread::Unread;
use bike_fields::{Form, NameKind};
use bike_fixed::Within;
use bike_texts::{BlockedField, BrokenField, Degrees, DisabledField, Fields, Plain, Range, Side};
use std::alloc::{AllocError, Global};

/// A value of a command that needs no memory. No pair is one: so a pair is spelled in one way.
pub trait PlainField: Plain {}

impl<const LO: u32, const HI: u32, K: Copy> PlainField for Within<LO, HI, K> {}

impl PlainField for Form {}

impl PlainField for NameKind {}

impl PlainField for Side {}

impl PlainField for bool {}

impl PlainField for BrokenField {}

impl PlainField for DisabledField {}

impl PlainField for BlockedField {}

impl<const GREATEST: u32> PlainField for Degrees<GREATEST> {}

impl PlainField for Range {}

impl<T: PlainField> Spelled for T {
    ghost read = { T.found };

    ghost stands = { T.stands };

    fn pass(fields: &mut Fields) -> Option<()> {
        T::find(fields)?;
        Some(())
    }

    fn take(_: Global, fields: &mut Fields) -> Result<T, Unread> {
        T::find(fields).ok_or(Unread::BadField)
    }

    fn put(&self, out: &mut String) -> Result<(), AllocError> {
        self.write(out)
    }
}
