//! The kinds of texts.

ghost use Rattle.std.specs.Prelude.{◌≡◌, Bool, List, ℕ, Option};
ghost use Rattle.bike_fields.specs.declared.fault.Bound.{Bound};
ghost use Rattle.bike_fields.specs.Fault.{ident_fault, key_fault, language_fault, currency_fault, ascii_fault};
ghost use Rattle.bike_fields.specs.Fault.{name_fault};
ghost use Rattle.bike_fields.specs.Bytes.{is_ident, ident_of, is_key, key_of, is_language, language_of, is_currency};
ghost use Rattle.bike_fields.specs.Bytes.{currency_of, is_ascii_field, ascii_of, is_name, name_of};
ghost use Rattle.bike_fields.specs.Texts.{Judges};

use crate::bytes::{
    are_ident_bytes, are_key_bytes, are_language_bytes, are_name_bytes, are_printable,
    are_uppercase, has_length,
};
use crate::fault::Bound;
use crate::text_lengths::{
    CURRENCY_LENGTH, LONGEST_ASCII, LONGEST_IDENT, LONGEST_KEY, LONGEST_LANGUAGE, LONGEST_NAME,
    SHORTEST_LANGUAGE,
};

/// What a text is one of: the test of its bytes, what reading it gives, and the bound that it breaks.
pub trait TextKind {
    ghost is_text: { List ℕ → Bool };

    ghost text_of: { List ℕ → Option (List ℕ) };

    ghost fault_of: { List ℕ → Option Bound };

    /// The first bound that the text breaks, its length before its characters; this needs no memory.
    fn first_fault(text: &str) -> Option<Bound>
        ensures value { result ≡ fault_of text.now }
        ensures judged { Judges text.now (is_text text.now) (text_of text.now) result };
}

/// The kind of `Ident`.
#[derive(Debug, Drop)]
pub struct Ident;

#[tactic(auto, unfolding(crate::specs::Fault::ident_fault, crate::specs::Bytes::ident_of))]
impl TextKind for Ident {
    ghost is_text = { is_ident };

    ghost text_of = { ident_of };

    ghost fault_of = { ident_fault };

    fn first_fault(text: &str) -> Option<Bound> {
        if !has_length(text, 1, LONGEST_IDENT) {
            return Some(Bound::Length);
        }
        if !are_ident_bytes(text.as_bytes()) {
            return Some(Bound::Charset);
        }
        None
    }
}

/// The kind of `RequestKey`.
#[derive(Debug, Drop)]
pub struct RequestKey;

#[tactic(auto, unfolding(crate::specs::Fault::key_fault, crate::specs::Bytes::key_of))]
impl TextKind for RequestKey {
    ghost is_text = { is_key };

    ghost text_of = { key_of };

    ghost fault_of = { key_fault };

    fn first_fault(text: &str) -> Option<Bound> {
        if !has_length(text, 1, LONGEST_KEY) {
            return Some(Bound::Length);
        }
        if !are_key_bytes(text.as_bytes()) {
            return Some(Bound::Charset);
        }
        None
    }
}

/// The kind of `Language`.
#[derive(Debug, Drop)]
pub struct Language;

#[tactic(auto, unfolding(crate::specs::Fault::language_fault, crate::specs::Bytes::language_of))]
impl TextKind for Language {
    ghost is_text = { is_language };

    ghost text_of = { language_of };

    ghost fault_of = { language_fault };

    fn first_fault(text: &str) -> Option<Bound> {
        if !has_length(text, SHORTEST_LANGUAGE, LONGEST_LANGUAGE) {
            return Some(Bound::Length);
        }
        if !are_language_bytes(text.as_bytes()) {
            return Some(Bound::Charset);
        }
        None
    }
}

/// The kind of `Currency`.
#[derive(Debug, Drop)]
pub struct Currency;

#[tactic(auto, unfolding(crate::specs::Fault::currency_fault, crate::specs::Bytes::currency_of))]
impl TextKind for Currency {
    ghost is_text = { is_currency };

    ghost text_of = { currency_of };

    ghost fault_of = { currency_fault };

    fn first_fault(text: &str) -> Option<Bound> {
        if !has_length(text, CURRENCY_LENGTH, CURRENCY_LENGTH) {
            return Some(Bound::Length);
        }
        if !are_uppercase(text.as_bytes()) {
            return Some(Bound::Charset);
        }
        None
    }
}

/// The kind of `Ascii`.
#[derive(Debug, Drop)]
pub struct Ascii;

#[tactic(auto, unfolding(crate::specs::Fault::ascii_fault, crate::specs::Bytes::ascii_of))]
impl TextKind for Ascii {
    ghost is_text = { is_ascii_field };

    ghost text_of = { ascii_of };

    ghost fault_of = { ascii_fault };

    fn first_fault(text: &str) -> Option<Bound> {
        if !has_length(text, 1, LONGEST_ASCII) {
            return Some(Bound::Length);
        }
        if !are_printable(text.as_bytes()) {
            return Some(Bound::Charset);
        }
        None
    }
}

/// The kind of `Name`.
#[derive(Debug, Drop)]
pub struct Name;

#[tactic(auto, unfolding(crate::specs::Fault::name_fault, crate::specs::Bytes::name_of))]
impl TextKind for Name {
    ghost is_text = { is_name };

    ghost text_of = { name_of };

    ghost fault_of = { name_fault };

    fn first_fault(text: &str) -> Option<Bound> {
        if !has_length(text, 1, LONGEST_NAME) {
            return Some(Bound::Length);
        }
        if !are_name_bytes(text.as_bytes()) {
            return Some(Bound::Charset);
        }
        None
    }
}
