//! Callers.

ghost use Rattle.std.specs.Prelude.{◌≡◌, ◌≤◌, ◌++◌, List, ℕ, IfOk, IfErr, IfSome, Some, decimal};
ghost use Rattle.arrayvec.specs.ArrayString.{array_string_len};
ghost use Rattle.bike_fields.specs.Caller.{IsCaller, HasIdent, HoldsIdent, caller_meant, caller_text, caller_of};
ghost use Rattle.bike_fields.specs.Caller.{caller_named};
ghost use Rattle.bike_fields.specs.Reads.{Gives, IsReadAs};
ghost use Rattle.bike_fields.specs.declared.caller.Caller.{Caller};

use crate::numbers::{GREATEST_NUMBER, RiderNumber, TruckNumber};
use crate::text::Ident;
use arrayvec::ArrayString;
use bike_fixed::Within;
use itoa::Buffer;
use std::alloc::{AllocError, Global};

/// Who sent a request. A caller's numbers and identifiers needn't exist.
#[derive(Debug, Drop)]
pub enum Caller {
    /// `office`
    Office,
    /// `office:NAME`, a person of the office
    Staff(Ident),
    /// `rider:N`
    Rider(RiderNumber),
    /// `dock:STATION`
    Dock(Ident),
    /// `crew:TRUCK`
    Crew(TruckNumber),
    /// `import:NAME`
    Import(Ident),
}

/// A caller as a text names it, before it has memory of its own.
#[derive(Clone, Copy, Debug)]
pub enum CallerName<'a> {
    /// `office`
    Office,
    /// `office:NAME`, a person of the office
    Staff(&'a str),
    /// `rider:N`
    Rider(RiderNumber),
    /// `dock:STATION`
    Dock(&'a str),
    /// `crew:TRUCK`
    Crew(TruckNumber),
    /// `import:NAME`
    Import(&'a str),
}

impl<'a> CallerName<'a> {
    /// The caller that the text names; this needs no memory.
    #[tactic(auto, unfolding(crate::specs::Caller::caller_of))]
    pub fn read(text: &'a str) -> Option<CallerName<'a>>
        ensures read { Gives caller_meant result (caller_of text.now) }
        ensures good { IfSome result HasIdent }
    {
        match text.split_once(':') {
            Some((kind, name)) => named(kind, name),
            None if text == "office" => Some(CallerName::Office),
            None => None,
        }
    }

    /// The caller, with memory of its own; an error where memory was refused, never of the office alone, a rider
    /// or a crew.
    pub fn keep(self, alloc: Global) -> Result<Caller, AllocError>
        requires { HasIdent self }
        ensures value { IfOk result (λ caller. caller ≡ caller_meant self.entry) }
        ensures spared { IfErr result (λ _. HoldsIdent (caller_meant self.entry)) }
    {
        match self {
            CallerName::Office => Ok(Caller::Office),
            CallerName::Staff(name) => Ok(Caller::Staff(Ident::of(alloc, name)?)),
            CallerName::Rider(number) => Ok(Caller::Rider(number)),
            CallerName::Dock(station) => Ok(Caller::Dock(Ident::of(alloc, station)?)),
            CallerName::Crew(truck) => Ok(Caller::Crew(truck)),
            CallerName::Import(name) => Ok(Caller::Import(Ident::of(alloc, name)?)),
        }
    }
}

impl Caller {
    /// The caller whose text this is; an error where memory was refused, which only the text of a person of the office,
    /// a dock or an import asks for.
    pub fn read(alloc: Global, text: &str) -> Result<Option<Caller>, AllocError>
        ensures read { IsReadAs (caller_of text.now) result }
        ensures spared { IfErr result (λ _. (c : Caller) → caller_of text.now ≡ Some c → HoldsIdent c) }
    {
        let Some(name) = CallerName::read(text) else {
            return Ok(None);
        };
        Ok(Some(name.keep(alloc)?))
    }

    /// The caller's text.
    pub fn text(&self) -> ArrayString<43>
        ensures text { result.bytes ≡ caller_text self.now }
    {
        let mut out = ArrayString::new();
        match self {
            Caller::Office => out.push_str("office"),
            Caller::Staff(name) => {
                out.push_str("office:");
                push_ident(&mut out, name);
            }
            Caller::Rider(number) => {
                out.push_str("rider:");
                push_number(&mut out, number);
            }
            Caller::Dock(station) => {
                out.push_str("dock:");
                push_ident(&mut out, station);
            }
            Caller::Crew(truck) => {
                out.push_str("crew:");
                push_number(&mut out, truck);
            }
            Caller::Import(name) => {
                out.push_str("import:");
                push_ident(&mut out, name);
            }
        }
        out
    }
}

/// The caller of that kind.
#[tactic(auto, unfolding(crate::specs::Caller::caller_named))]
fn named<'a>(kind: &str, name: &'a str) -> Option<CallerName<'a>>
    ensures read { Gives caller_meant result (caller_named kind.now name.now) }
    ensures good { IfSome result HasIdent }
{
    match kind {
        "office" => Some(CallerName::Staff(Ident::checked(name)?)),
        "rider" => Some(CallerName::Rider(RiderNumber::read(name)?)),
        "dock" => Some(CallerName::Dock(Ident::checked(name)?)),
        "crew" => Some(CallerName::Crew(TruckNumber::read(name)?)),
        "import" => Some(CallerName::Import(Ident::checked(name)?)),
        _ => None,
    }
}

/// Appends a rider's or a truck's number.
fn push_number<K>(out: &mut ArrayString<43>, number: &Within<1, GREATEST_NUMBER, K>)
    requires { array_string_len out.old ≤ 7 }
    ensures { out.new.bytes ≡ out.old.bytes ++ decimal number.now }
{
    let mut buffer = Buffer::new();
    out.push_str(buffer.format(number.get()));
}

/// Appends an identifier.
#[tactic(auto, using(crate::proofs::Lengths::ident_length))]
fn push_ident(out: &mut ArrayString<43>, ident: &Ident)
    requires { array_string_len out.old ≤ 7 }
    ensures { out.new.bytes ≡ out.old.bytes ++ ident.now }
{
    out.push_str(ident.as_str());
}

/// The laws of callers' texts: one is read exactly from its own text.
pub fn caller_laws()
    ensures sound { (text : List ℕ) (c : Caller) → caller_of text ≡ Some c → IsCaller c × (text ≡ caller_text c) }
    ensures full { (c : Caller) → IsCaller c → caller_of (caller_text c) ≡ Some c }
{}
