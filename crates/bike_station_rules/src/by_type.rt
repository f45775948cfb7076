//! A station's bicycles by type.

ghost use Rattle.std.specs.Prelude.{◌≡◌, suc, [], IfOk, OnOk};
ghost use Rattle.bike_book.specs.ByType.{one_more};
ghost use Rattle.bike_station_rules.specs.Types.{with_one, is_told};

use bike_book::{CountedType, TypeCounts, counts_of, is_text_of, set_counts};
use bike_fields::Ident;
use bike_schema::StatementFault;
use std::alloc::{AllocError, Global};
use std::marker::Model;

/// A station's bicycles by type: what its row says of them, and those that came so far.
#[derive(Drop)]
pub(crate) struct ByType {
    alloc: Global,
    text: String,
    types: Vec<CountedType>,
}

impl Model for ByType {
    ghost use Rattle.std.specs.String.{string_bytes};
    ghost use Rattle.bike_station_rules.specs.Types.{TypesSeen};

    ghost Value = { TypesSeen };

    ghost view = { λ a. record { text = string_bytes a.text; types = a.types.items } };
}

impl ByType {
    /// Before the first bicycle, where the row has this text. An error is a want of memory.
    pub(crate) fn new(alloc: Global, text: &str) -> Result<ByType, AllocError>
        ensures { IfOk result (λ made. made ≡ record { text = text.now; types = [] }) }
    {
        Ok(ByType {
            alloc,
            text: String::from_str(alloc, text)?,
            types: Vec::new(alloc),
        })
    }

    /// Adds a bicycle of the type. `NoMemory` where memory is refused, `StoreFailed` where a number passes 32 bits,
    /// which no city's does.
    pub(crate) fn add(&mut self, type_id: &str, available: bool) -> Result<(), StatementFault>
        ensures { OnOk result (self.new ≡ record self.old { types = with_one type_id.now available self.old.types }) }
    {
        let counts = one_more(available, counts_of(&self.types, type_id))?;
        let type_id = ident(self.alloc, type_id)?;
        set_counts(&mut self.types, type_id, counts)?;
        Ok(())
    }

    /// Whether the row's text is that of the bicycles that came.
    pub(crate) fn is_told(&self) -> bool
        ensures { result ≡ is_told self.now }
    {
        is_text_of(self.text.as_str(), &self.types)
    }
}

/// The counts with a bicycle more; `StoreFailed` where a number passes 32 bits.
fn one_more(available: bool, counts: TypeCounts) -> Result<TypeCounts, StatementFault>
    ensures { IfOk result (λ more. more ≡ one_more available counts) }
{
    if available {
        Ok(TypeCounts {
            available: next(counts.available)?,
            disabled: counts.disabled,
        })
    } else {
        Ok(TypeCounts {
            available: counts.available,
            disabled: next(counts.disabled)?,
        })
    }
}

/// The next number; `StoreFailed` where it passes 32 bits.
fn next(number: u32) -> Result<u32, StatementFault>
    ensures { IfOk result (λ n. n ≡ suc number) }
{
    number.checked_add(1).ok_or(StatementFault::StoreFailed)
}

/// The identifier; `NoMemory` where memory is refused, `StoreFailed` where the text is none, as no text is that was
/// read as one.
#[tactic(auto, unfolding(bike_fields::specs::Bytes::ident_of))]
fn ident(alloc: Global, text: &str) -> Result<Ident, StatementFault>
    ensures { IfOk result (λ made. made ≡ text.now) }
{
    let Some(checked) = Ident::checked(text) else {
        return Err(StatementFault::StoreFailed);
    };
    Ok(Ident::of(alloc, checked)?)
}
