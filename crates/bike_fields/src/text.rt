//! Texts of one kind.

ghost use Rattle.std.specs.Prelude.{◌≡◌, true, IfOk, IfSome, List, ℕ, string_bytes};
ghost use Rattle.bike_fields.specs.Fault.{Makes, Tests, at_field};
ghost use Rattle.bike_fields.specs.Reads.{Gives, IsReadAs};

use crate::fault::{Field, FieldFault};
use crate::text_kind::{self, TextKind};
use std::alloc::{AllocError, Global};
use std::marker::{Model, PhantomData};

/// A text that keeps the bounds of its kind.
#[derive(Debug, Drop)]
pub struct Text<K: TextKind> {
    text: String,
    kind: PhantomData<K>,
}

impl<K: TextKind> Model for Text<K> {
    ghost Value = { List ℕ };

    ghost view = { λ a. string_bytes a.text };

    ghost invariant = { λ a. K.is_text (string_bytes a.text) ≡ true };
}

impl<K: TextKind> Text<K> {
    /// The text as that field of a record, or the first bound that it breaks: its length before its characters. Memory
    /// is asked for only where it keeps both, and `NoMemory` comes where that is refused.
    pub fn new(alloc: Global, field: Field, text: &str) -> Result<Text<K>, FieldFault>
        ensures { Makes text.now (at_field field (K.fault_of text.now)) result }
    {
        let tested = Text::<K>::tested(field, text)?;
        Ok(Text::of(alloc, tested)?)
    }

    /// The text, where it keeps the bounds of that field of a record, else the first that it breaks; this needs no
    /// memory.
    pub fn tested<'a>(field: Field, text: &'a str) -> Result<&'a str, FieldFault>
        ensures value { Tests (λ tested. tested.now) text.now (at_field field (K.fault_of text.now)) result }
        ensures good { IfOk result (λ tested. K.is_text tested.now ≡ true) }
    {
        match K::first_fault(text) {
            None => Ok(text),
            Some(bound) => Err(FieldFault::Broken { field, bound }),
        }
    }

    /// The text, where it is of the kind; this needs no memory.
    pub fn checked<'a>(text: &'a str) -> Option<&'a str>
        ensures read { Gives (λ checked. checked.now) result (K.text_of text.now) }
        ensures good { IfSome result (λ checked. K.is_text checked.now ≡ true) }
    {
        match K::first_fault(text) {
            None => Some(text),
            Some(_) => None,
        }
    }

    /// The value of a text that the caller knows to be of the kind; an error where memory was refused.
    pub fn of(alloc: Global, text: &str) -> Result<Text<K>, AllocError>
        requires { K.is_text text.now ≡ true }
        ensures { IfOk result (λ made. made ≡ text.now) }
    {
        Ok(Text {
            text: String::from_str(alloc, text)?,
            kind: PhantomData,
        })
    }

    /// The text, where it is of the kind; an error where memory was refused, which only such a text asks for.
    pub fn read(alloc: Global, text: &str) -> Result<Option<Text<K>>, AllocError>
        ensures { IsReadAs (K.text_of text.now) result }
    {
        let Some(checked) = Text::<K>::checked(text) else {
            return Ok(None);
        };
        Ok(Some(Text::of(alloc, checked)?))
    }

    /// The text, and its bounds.
    pub fn as_str(&self) -> &str
        ensures text { result.now ≡ self.now }
        ensures good { K.is_text self.now ≡ true }
    {
        self.text.as_str()
    }

    /// Another value with the same text.
    pub fn try_clone(&self, alloc: Global) -> Result<Text<K>, AllocError>
        ensures { IfOk result (λ copy. copy ≡ self.now) }
    {
        Ok(Text {
            text: String::from_str(alloc, self.text.as_str())?,
            kind: PhantomData,
        })
    }
}

/// The name of a station, vehicle type, plan, import or system: 1 to `LONGEST_IDENT` of `a-z 0-9 _ -`.
pub type Ident = Text<text_kind::Ident>;

/// What a caller names a request by: 1 to `LONGEST_KEY` of `A-Z a-z 0-9 _ -`.
pub type RequestKey = Text<text_kind::RequestKey>;

/// A language tag (RFC 5646) by its form alone: `SHORTEST_LANGUAGE` to
/// `LONGEST_LANGUAGE` of `A-Z a-z 0-9 -`.
pub type Language = Text<text_kind::Language>;

/// A currency code (ISO 4217) by its form alone: `CURRENCY_LENGTH` of `A-Z`.
pub type Currency = Text<text_kind::Currency>;

/// Opening hours, a contact, a time zone or a URL: 1 to `LONGEST_ASCII` bytes of 0x20 to 0x7E.
pub type Ascii = Text<text_kind::Ascii>;

/// A name or a description: UTF-8, 1 to `LONGEST_NAME` bytes, without U+0000.
pub type Name = Text<text_kind::Name>;
