//! The values that need memory: texts, segments, and what holds an identifier.
#![tactic(auto, unfolding(bike_texts::specs::Fields::fields_text))]

ghost use Rattle.bike_texts.specs.Kinds.{Asciis, Currencies, Ends, Idents, IdentsOrNone, Languages, Names};
ghost use Rattle.bike_texts.specs.Kinds.{SegmentLists, fields_with, reads};

use crate::spelled::{FieldReferences, Spelled};
use crate::unread::Unread;
use bike_fields::{Ascii, Currency, Ident, Language, Name, Segment};
use bike_texts::{Fields, OrderEnd, put_escaped, put_segments, put_text};
use std::alloc::{AllocError, Global};
use std::marker::Model;

impl Spelled for Ident {
    ghost read = { reads Idents };

    ghost stands = { fields_with Idents };

    fn pass(fields: &mut Fields) -> Option<()> {
        fields.ident()?;
        Some(())
    }

    fn take(alloc: Global, fields: &mut Fields) -> Result<Ident, Unread> {
        let text = fields.ident().ok_or(Unread::BadField)?;
        Ok(Ident::of(alloc, text)?)
    }

    fn put(&self, out: &mut String) -> Result<(), AllocError> {
        put_text(out, self.as_str())
    }
}

impl Spelled for Language {
    ghost read = { reads Languages };

    ghost stands = { fields_with Languages };

    fn pass(fields: &mut Fields) -> Option<()> {
        fields.language()?;
        Some(())
    }

    fn take(alloc: Global, fields: &mut Fields) -> Result<Language, Unread> {
        let text = fields.language().ok_or(Unread::BadField)?;
        Ok(Language::of(alloc, text)?)
    }

    fn put(&self, out: &mut String) -> Result<(), AllocError> {
        put_text(out, self.as_str())
    }
}

impl Spelled for Currency {
    ghost read = { reads Currencies };

    ghost stands = { fields_with Currencies };

    fn pass(fields: &mut Fields) -> Option<()> {
        fields.currency()?;
        Some(())
    }

    fn take(alloc: Global, fields: &mut Fields) -> Result<Currency, Unread> {
        let text = fields.currency().ok_or(Unread::BadField)?;
        Ok(Currency::of(alloc, text)?)
    }

    fn put(&self, out: &mut String) -> Result<(), AllocError> {
        put_text(out, self.as_str())
    }
}

impl Spelled for Name {
    ghost read = { reads Names };

    ghost stands = { fields_with Names };

    fn pass(fields: &mut Fields) -> Option<()> {
        fields.name()?;
        Some(())
    }

    fn take(alloc: Global, fields: &mut Fields) -> Result<Name, Unread> {
        let text = fields.name().ok_or(Unread::BadField)?;
        Ok(Name::of(alloc, text.as_str())?)
    }

    fn put(&self, out: &mut String) -> Result<(), AllocError> {
        put_escaped(out, self.as_str())
    }
}

impl Spelled for Ascii {
    ghost read = { reads Asciis };

    ghost stands = { fields_with Asciis };

    fn pass(fields: &mut Fields) -> Option<()> {
        fields.ascii()?;
        Some(())
    }

    fn take(alloc: Global, fields: &mut Fields) -> Result<Ascii, Unread> {
        let text = fields.ascii().ok_or(Unread::BadField)?;
        Ok(Ascii::of(alloc, text.as_str())?)
    }

    fn put(&self, out: &mut String) -> Result<(), AllocError> {
        put_escaped(out, self.as_str())
    }
}

impl Spelled for OrderEnd {
    ghost read = { reads Ends };

    ghost stands = { fields_with Ends };

    fn pass(fields: &mut Fields) -> Option<()> {
        fields.order_end()?;
        Some(())
    }

    fn take(alloc: Global, fields: &mut Fields) -> Result<OrderEnd, Unread> {
        let end = fields.order_end().ok_or(Unread::BadField)?;
        Ok(end.keep(alloc)?)
    }

    fn put(&self, out: &mut String) -> Result<(), AllocError> {
        match self {
            OrderEnd::Depot => put_text(out, "*"),
            OrderEnd::Station(station) => put_text(out, station.as_str()),
        }
    }
}

impl Spelled for Option<Ident> {
    ghost read = { reads IdentsOrNone };

    ghost stands = { fields_with IdentsOrNone };

    fn pass(fields: &mut Fields) -> Option<()> {
        fields.ident_or_none()?;
        Some(())
    }

    fn take(alloc: Global, fields: &mut Fields) -> Result<Option<Ident>, Unread> {
        match fields.ident_or_none().ok_or(Unread::BadField)? {
            None => Ok(None),
            Some(text) => Ok(Some(Ident::of(alloc, text)?)),
        }
    }

    fn put(&self, out: &mut String) -> Result<(), AllocError> {
        match self {
            None => put_text(out, "*"),
            Some(ident) => put_text(out, ident.as_str()),
        }
    }
}

/// The segments of a plan, with memory of their own.
#[derive(Drop)]
pub struct Segments {
    pub list: Vec<Segment>,
}

impl Model for Segments {
    ghost use Rattle.std.specs.Prelude.{List};
    ghost use Rattle.bike_fields.specs.Values.{SegmentRow};

    ghost Value = { List SegmentRow };

    ghost view = { λ a. a.list.items };
}

impl Spelled for Segments {
    ghost read = { reads SegmentLists };

    ghost stands = { fields_with SegmentLists };

    fn pass(fields: &mut Fields) -> Option<()> {
        fields.segments()?;
        Some(())
    }

    fn take(alloc: Global, fields: &mut Fields) -> Result<Segments, Unread> {
        let segments = fields.segments().ok_or(Unread::BadField)?;
        let list = Vec::from_slice(alloc, segments.as_slice())?;
        Ok(Segments { list })
    }

    fn put(&self, out: &mut String) -> Result<(), AllocError> {
        put_segments(out, self.list.as_slice())
    }
}

impl FieldReferences for &[Segment] {
    ghost written = { λ segments. fields_with SegmentLists segments.now };

    fn put_all(&self, out: &mut String) -> Result<(), AllocError> {
        put_segments(out, *self)
    }
}
