//! The text of a station's bicycles by type: `TYPE:AVAILABLE:DISABLED`, with `;` between types and `-` for none.

ghost use Rattle.std.specs.Prelude.{◌≡◌, ◌++◌, ◌∷◌, true, decimal, fold, map, IfOk, IfSome, OnOk, option_map};
ghost use Rattle.std.specs.Prelude.{string_bytes};
ghost use Rattle.std.specs.Str.{bytes_eq};
ghost use Rattle.bike_fields.specs.Bytes.{is_ident};
ghost use Rattle.bike_fields.specs.Reads.{Gives};
ghost use Rattle.bike_book.specs.ByType.{all_read, by_type_read, by_type_text, counted_read, counted_text, with_counts};
ghost use Rattle.bike_book.specs.TypeTexts.{IsBehind, others_text, parted, or_none};

use crate::by_type::{CountedType, TypeCounts, are_none, place_of};
use bike_fields::Ident;
use bike_fixed::Within;
use bike_texts::Fields;
use itoa::Buffer;
use std::alloc::{AllocError, Global};

/// The number behind a colon.
fn push_count(out: &mut String, count: u32) -> Result<(), AllocError>
    ensures { OnOk result (string_bytes out.new ≡ string_bytes out.old ++ 58 ∷ decimal count) }
{
    out.push(':')?;
    let mut buffer = Buffer::new();
    out.push_str(buffer.format(count))
}

/// `TYPE:AVAILABLE:DISABLED`.
fn push_counted(out: &mut String, type_id: &Ident, counts: TypeCounts) -> Result<(), AllocError>
    ensures { OnOk result (string_bytes out.new ≡ string_bytes out.old
        ++ counted_text (record { type_id = type_id.now; counts = counts })) }
{
    out.push_str(type_id.as_str())?;
    push_count(out, counts.available)?;
    push_count(out, counts.disabled)
}

/// The type behind those that the text has.
fn push_type(out: &mut String, type_id: &Ident, counts: TypeCounts) -> Result<(), AllocError>
    ensures { OnOk result (string_bytes out.new
        ≡ parted (string_bytes out.old) (counted_text (record { type_id = type_id.now; counts = counts }))) }
{
    if !out.is_empty() {
        out.push(';')?;
    }
    push_counted(out, type_id, counts)
}

/// The types behind those that the text has.
fn push_types(out: &mut String, by_type: &[CountedType]) -> Result<(), AllocError>
    ensures { OnOk result (string_bytes out.new
        ≡ fold parted (string_bytes out.old) (map counted_text by_type.now)) }
{
    for counted in by_type {
        push_type(out, &counted.type_id, counted.counts)?;
    }
    Ok(())
}

/// `-` where the text has no type.
fn push_none(out: &mut String) -> Result<(), AllocError>
    ensures { OnOk result (string_bytes out.new ≡ or_none (string_bytes out.old)) }
{
    if out.is_empty() {
        return out.push('-');
    }
    Ok(())
}

/// The text of the types. An error is a want of memory.
pub fn by_type_text(alloc: Global, by_type: &[CountedType]) -> Result<String, AllocError>
    ensures { IfOk result (λ text. string_bytes text ≡ by_type_text by_type.now) }
{
    let mut out = String::new(alloc);
    push_types(&mut out, by_type)?;
    push_none(&mut out)?;
    Ok(out)
}

/// The text of the types where one of them has these counts. An error is a want of memory.
pub fn by_type_with(
    alloc: Global,
    by_type: &[CountedType],
    type_id: &Ident,
    counts: TypeCounts,
) -> Result<String, AllocError>
    ensures { IfOk result (λ text. string_bytes text ≡ by_type_text (with_counts type_id.now counts by_type.now)) }
{
    let place = place_of(by_type, type_id);
    let mut out = String::new(alloc);
    push_types(&mut out, &by_type[..place.from])?;
    if !are_none(counts) {
        push_type(&mut out, type_id, counts)?;
    }
    push_types(&mut out, &by_type[place.to..])?;
    push_none(&mut out)?;
    Ok(out)
}

/// What stands behind the number and the colon in front of it, where the text begins with them.
fn behind_count<'a>(text: &'a str, count: u32) -> Option<&'a str>
    ensures { IsBehind (58 ∷ decimal count) text.now result }
{
    let rest = text.strip_prefix(':')?;
    let mut buffer = Buffer::new();
    rest.strip_prefix(buffer.format(count))
}

/// What stands behind the type, where the text begins with it.
fn behind_type<'a>(text: &'a str, counted: &CountedType) -> Option<&'a str>
    ensures { IsBehind (counted_text counted.now) text.now result }
{
    let counts = counted.counts;
    let rest = text.strip_prefix(counted.type_id.as_str())?;
    let rest = behind_count(rest, counts.available)?;
    behind_count(rest, counts.disabled)
}

/// What stands behind the type and the semicolon in front of it, where the text begins with them.
fn behind_other<'a>(text: &'a str, counted: &CountedType) -> Option<&'a str>
    ensures { IsBehind (59 ∷ counted_text counted.now) text.now result }
{
    let rest = text.strip_prefix(';')?;
    behind_type(rest, counted)
}

/// Whether the text is that of the types behind the first.
fn are_others(text: &str, others: &[CountedType]) -> bool
    ensures { result ≡ bytes_eq text.now (others_text others.now) }
{
    let mut rest = text;
    for counted in others {
        match behind_other(rest, counted) {
            Some(behind) => rest = behind,
            None => return false,
        }
    }
    rest.is_empty()
}

/// Whether it is the text of the types.
pub fn is_text_of(text: &str, by_type: &[CountedType]) -> bool
    ensures { result ≡ bytes_eq text.now (by_type_text by_type.now) }
{
    match by_type.split_first() {
        None => text == "-",
        Some((first, others)) => match behind_type(text, first) {
            Some(rest) => are_others(rest, others),
            None => false,
        },
    }
}

/// The type that the text tells, before it has memory of its own.
#[tactic(auto, unfolding(crate::specs::ByType::counted_read))]
fn read_counted(text: &str) -> Option<(&str, TypeCounts)>
    ensures read { Gives (λ read. record { type_id = read.0.now; counts = read.1 }) result (counted_read text.now) }
    ensures good { IfSome result (λ read. is_ident read.0.now ≡ true) }
{
    let mut fields = Fields::cut(text, ':');
    let type_id = fields.ident()?;
    let available: Within<0, { u32::MAX }> = fields.number()?;
    let disabled: Within<0, { u32::MAX }> = fields.number()?;
    fields.end()?;
    Some((
        type_id,
        TypeCounts {
            available: available.get(),
            disabled: disabled.get(),
        },
    ))
}

/// The types that the parts tell, one each.
fn read_all(alloc: Global, mut parts: Fields) -> Result<Option<Vec<CountedType>>, AllocError>
    ensures { IfOk result (λ read. option_map (λ list. list.items) read ≡ all_read parts.entry) }
{
    let mut list = Vec::new(alloc);
    while let Some(text) = parts.part() {
        let Some((type_id, counts)) = read_counted(text) else {
            return Ok(None);
        };
        let type_id = Ident::of(alloc, type_id)?;
        list.push(CountedType { type_id, counts })?;
    }
    Ok(Some(list))
}

/// The types of which the text tells, or none where it is no such text. An error is a want of memory.
#[tactic(auto, unfolding(crate::specs::ByType::by_type_read))]
pub fn read_by_type(alloc: Global, text: &str) -> Result<Option<Vec<CountedType>>, AllocError>
    ensures { IfOk result (λ read. option_map (λ list. list.items) read ≡ by_type_read text.now) }
{
    if text == "-" {
        return Ok(Some(Vec::new(alloc)));
    }
    read_all(alloc, Fields::cut(text, ';'))
}
