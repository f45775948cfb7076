//! The parts of a text between its separators, from left to right.

ghost use Rattle.std.specs.Prelude.{◌≡◌, ◌<◌, ◌==◌, true, IfSome, option_map};
ghost use Rattle.std.specs.List.{slice_split};
ghost use Rattle.bike_fixed.specs.Whole.{number_of, last_moment};
ghost use Rattle.bike_fields.specs.Caller as callers;
ghost use Rattle.bike_fields.specs.Caller.{caller_of, caller_meant};
ghost use Rattle.bike_fields.specs.Bytes.{is_key, is_ident, is_language, is_currency, is_name, is_ascii_field};
ghost use Rattle.bike_fields.specs.Bytes.{key_of, ident_of, language_of, currency_of};
ghost use Rattle.bike_fields.specs.Values.{is_range};
ghost use Rattle.bike_fields.specs.NameKinds.{kind_of};
ghost use Rattle.bike_fields.specs.Vehicle.{form_of, propulsion_of};
ghost use Rattle.bike_texts.specs.Escapes.{name_at, ascii_at};
ghost use Rattle.bike_texts.specs.SegmentReading.{segments_of};
ghost use Rattle.bike_texts.specs.Reading.{Takes, HasIdent, part_at, field_at, no_more, exactly, i64_of, fare_of};
ghost use Rattle.bike_texts.specs.Reading.{degrees_of, is_of_size, metres_of, choice_of, side_of, end_of, end_meant};
ghost use Rattle.bike_texts.specs.Reading.{ident_or_none_of};

use crate::ends::{EndName, Side};
use crate::escapes::{AsciiText, NameText, read_ascii, read_name};
use crate::fare::Fare;
use crate::segments::{SegmentList, read_segments};
use crate::values::{
    read_choice, read_degrees, read_ident_or_none, read_metres, read_order_end, read_side,
};
use bike_fields::{
    CallerName, Currency, Form, Ident, Language, MaxRange, NameKind, Propulsion, RequestKey,
};
use bike_fixed::{GREATEST_FARE, Micro, Moment, Within, read_signed};
use std::marker::Model;

/// What is left of a text, seen as the list of its parts.
#[derive(Drop)]
pub struct Fields<'a> {
    rest: Option<&'a str>,
    separator: char,
}

impl<'a> Model for Fields<'a> {
    ghost use Rattle.std.specs.Prelude.{List, ℕ, ◌<◌};
    ghost use Rattle.bike_texts.specs.Parts.{parts_at};

    ghost Value = { List (List ℕ) };

    ghost view = { λ a. parts_at a.separator a.rest };

    ghost invariant = { λ a. a.separator < 128 };
}

impl<'a> Fields<'a> {
    /// All parts of a text between its TABs. The empty text has one, which is empty.
    pub fn of(text: &'a str) -> Fields<'a>
        ensures { result ≡ slice_split (λ b. b == 9) text.now }
    {
        Fields::cut(text, '\t')
    }

    /// All parts of a text between its separators, an ASCII character. The empty text has one, which is empty.
    pub fn cut(text: &'a str, separator: char) -> Fields<'a>
        requires { separator < 128 }
        ensures { result ≡ slice_split (λ b. b == separator) text.now }
    {
        Fields {
            rest: Some(text),
            separator,
        }
    }

    /// The same parts, to be read a second time.
    pub fn again(&self) -> Fields<'a>
        ensures { result ≡ self.now }
    {
        Fields {
            rest: self.rest,
            separator: self.separator,
        }
    }

    /// The next part as it stands.
    pub fn part(&mut self) -> Option<&'a str>
        ensures { Takes (λ p. p.now) result (part_at self.old) self.new }
    {
        let text = self.rest?;
        match text.split_once(self.separator) {
            Some((front, back)) => {
                self.rest = Some(back);
                Some(front)
            }
            None => {
                self.rest = None;
                Some(text)
            }
        }
    }

    /// The next part as a whole number of a range.
    pub fn number<const LO: u32, const HI: u32, K>(&mut self) -> Option<Within<LO, HI, K>>
        ensures { Takes (λ n. n) result (field_at (number_of LO HI) self.old) self.new }
    {
        let text = self.part()?;
        Within::read(text)
    }

    /// The next part as a whole number of 64 bits, with a minus sign exactly below zero.
    pub fn signed(&mut self) -> Option<i64>
        ensures { Takes (λ z. z) result (field_at i64_of self.old) self.new }
    {
        let text = self.part()?;
        read_signed(text, i64::MIN, i64::MAX)
    }

    /// The next part as the fare of a rental, 0 to `GREATEST_FARE` hundredths.
    #[tactic(auto, unfolding(bike_fixed::specs::Whole::signed_of))]
    pub fn fare(&mut self) -> Option<Fare>
        ensures { Takes (λ z. z) result (field_at fare_of self.old) self.new }
    {
        let text = self.part()?;
        let hundredths = read_signed(text, 0, GREATEST_FARE)?;
        Fare::new(hundredths)
    }

    /// The next part as a moment, in seconds.
    pub fn moment(&mut self) -> Option<Moment>
        ensures { Takes (λ t. t) result (field_at (number_of 0 last_moment) self.old) self.new }
    {
        let text = self.part()?;
        Moment::read(text)
    }

    /// The next part as a caller.
    pub fn caller(&mut self) -> Option<CallerName<'a>>
        ensures read { Takes caller_meant result (field_at caller_of self.old) self.new }
        ensures good { IfSome result callers.HasIdent }
    {
        let text = self.part()?;
        CallerName::read(text)
    }

    /// The next part as a request key.
    pub fn key(&mut self) -> Option<&'a str>
        ensures read { Takes (λ text. text.now) result (field_at key_of self.old) self.new }
        ensures good { IfSome result (λ text. is_key text.now ≡ true) }
    {
        let text = self.part()?;
        RequestKey::checked(text)
    }

    /// The next part as an identifier.
    pub fn ident(&mut self) -> Option<&'a str>
        ensures read { Takes (λ text. text.now) result (field_at ident_of self.old) self.new }
        ensures good { IfSome result (λ text. is_ident text.now ≡ true) }
    {
        let text = self.part()?;
        Ident::checked(text)
    }

    /// The next part as a language.
    pub fn language(&mut self) -> Option<&'a str>
        ensures read { Takes (λ text. text.now) result (field_at language_of self.old) self.new }
        ensures good { IfSome result (λ text. is_language text.now ≡ true) }
    {
        let text = self.part()?;
        Language::checked(text)
    }

    /// The next part as a currency.
    pub fn currency(&mut self) -> Option<&'a str>
        ensures read { Takes (λ text. text.now) result (field_at currency_of self.old) self.new }
        ensures good { IfSome result (λ text. is_currency text.now ≡ true) }
    {
        let text = self.part()?;
        Currency::checked(text)
    }

    /// The next part as a name, with escapes.
    pub fn name(&mut self) -> Option<NameText>
        ensures read { Takes (λ name. name.bytes) result (field_at name_at self.old) self.new }
        ensures good { IfSome result (λ name. is_name name.bytes ≡ true) }
    {
        let text = self.part()?;
        read_name(text)
    }

    /// The next part as an ASCII field, with escapes.
    pub fn ascii(&mut self) -> Option<AsciiText>
        ensures read { Takes (λ ascii. ascii.bytes) result (field_at ascii_at self.old) self.new }
        ensures good { IfSome result (λ ascii. is_ascii_field ascii.bytes ≡ true) }
    {
        let text = self.part()?;
        read_ascii(text)
    }

    /// The next part as a coordinate, spelled in degrees, whose size is at most `greatest` microdegrees.
    pub fn degrees(&mut self, greatest: u32) -> Option<Micro>
        ensures read { Takes (λ z. z) result (field_at (degrees_of greatest) self.old) self.new }
        ensures good { IfSome result (λ z. is_of_size greatest z ≡ true) }
    {
        let text = self.part()?;
        read_degrees(text, greatest)
    }

    /// The next part as the greatest range, in metres, of a vehicle with that propulsion.
    pub fn metres(&mut self, propulsion: Propulsion) -> Option<MaxRange>
        ensures read { Takes (λ n. n) result (field_at (metres_of propulsion) self.old) self.new }
        ensures good { IfSome result (λ n. is_range propulsion n ≡ true) }
    {
        let text = self.part()?;
        read_metres(text, propulsion)
    }

    /// The next part as a choice: true for the word, false for the other.
    pub fn choice(&mut self, word: &str, other: &str) -> Option<bool>
        ensures { Takes (λ b. b) result (field_at (choice_of word.now other.now) self.old) self.new }
    {
        let text = self.part()?;
        read_choice(text, word, other)
    }

    /// The next part as a form.
    pub fn form(&mut self) -> Option<Form>
        ensures { Takes (λ f. f) result (field_at form_of self.old) self.new }
    {
        let text = self.part()?;
        Form::read(text)
    }

    /// The next part as a propulsion.
    pub fn propulsion(&mut self) -> Option<Propulsion>
        ensures { Takes (λ p. p) result (field_at propulsion_of self.old) self.new }
    {
        let text = self.part()?;
        Propulsion::read(text)
    }

    /// The next part as a kind of what has names.
    pub fn name_kind(&mut self) -> Option<NameKind>
        ensures { Takes (λ k. k) result (field_at kind_of self.old) self.new }
    {
        let text = self.part()?;
        NameKind::read(text)
    }

    /// The next part as a side of an order, `from` or `to`.
    pub fn side(&mut self) -> Option<Side>
        ensures { Takes (λ s. s) result (field_at side_of self.old) self.new }
    {
        let text = self.part()?;
        read_side(text)
    }

    /// The next part as an end of an order, `*` or a station.
    pub fn order_end(&mut self) -> Option<EndName<'a>>
        ensures read { Takes end_meant result (field_at end_of self.old) self.new }
        ensures good { IfSome result HasIdent }
    {
        let text = self.part()?;
        read_order_end(text)
    }

    /// The next part as an identifier, or `*` for none.
    pub fn ident_or_none(&mut self) -> Option<Option<&'a str>>
        ensures read { Takes (λ name. option_map (λ id. id.now) name) result
            (field_at ident_or_none_of self.old) self.new }
        ensures good { IfSome result (λ name. IfSome name (λ id. is_ident id.now ≡ true)) }
    {
        let text = self.part()?;
        read_ident_or_none(text)
    }

    /// The next part as the segments of a plan, at most `MOST_SEGMENTS`.
    pub fn segments(&mut self) -> Option<SegmentList>
        ensures { Takes (λ list. list.items) result (field_at segments_of self.old) self.new }
    {
        let text = self.part()?;
        read_segments(text)
    }

    /// The next part, which has to be the word.
    #[tactic(auto, unfolding(crate::specs::Reading::exactly))]
    pub fn word(&mut self, word: &str) -> Option<()>
        ensures { Takes (λ _. tt) result (field_at (exactly word.now) self.old) self.new }
    {
        let text = self.part()?;
        if text == word { Some(()) } else { None }
    }

    /// Nothing is left.
    pub fn end(self) -> Option<()>
        ensures { result ≡ no_more self.entry }
    {
        match self.rest {
            None => Some(()),
            Some(_) => None,
        }
    }
}
