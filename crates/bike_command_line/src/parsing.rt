//! What clap makes of the words, and at which of them it takes offence.

ghost use Rattle.std.specs.Prelude.{◌≡◌, ◌⊎◌, ◌<◌, ◌≤◌, ◌+◌, ◌-◌, [], length, slice_get, take};
ghost use Rattle.std.specs.Prelude.{IfOk, IfErr, MatchOption, Some, true, false};
ghost use Rattle.clap.specs.Words.{fault_of, subcommand_of, subcommand_rows_of};
ghost use Rattle.bike_command_line.specs.Program.{program};
ghost use Rattle.bike_command_line.specs.Asked.{texts_of};
ghost use Rattle.bike_command_line.specs.Told.{Against, Begins, IsSo, Leads, Otherwise, has_one_hyphen, value_meant};

use crate::mistake::Mistake;
use crate::program::program;
use crate::value::Value;
use crate::word::Word;
use clap::ArgMatches;
use clap::error::ErrorKind;
use std::alloc::{AllocError, Global};

/// What clap finds in the words, or what it has against them.
pub(crate) fn matches_of<'a>(
    alloc: Global,
    words: &'a [&'a str],
) -> Result<ArgMatches<'a>, ErrorKind>
    ensures taken { IfOk result (λ _. fault_of program (texts_of words.entry.now) ≡ []) }
    ensures found { IfOk result (λ m. subcommand_rows_of m ≡ subcommand_of program (texts_of words.entry.now)) }
    ensures refused { IfErr result (λ kind. (kind ≡ ErrorKind.OutOfMemory) ⊎ Against (texts_of words.entry.now) kind) }
{
    let Ok(program) = program(alloc) else {
        return Err(ErrorKind::OutOfMemory);
    };
    match program.try_get_matches_from(words) {
        Ok(matches) => Ok(matches),
        Err(error) => Err(error.kind()),
    }
}

/// What clap has against the words, or none where it has nothing.
fn kind_of<'a>(alloc: Global, words: &'a [&'a str]) -> Result<Option<ErrorKind>, AllocError>
    ensures { let texts = texts_of words.entry.now in
        IfOk result (λ kind. MatchOption kind (fault_of program texts ≡ []) (Against texts)) }
{
    match matches_of(alloc, words) {
        Ok(matches) => {
            drop(matches);
            Ok(None)
        }
        Err(ErrorKind::OutOfMemory) => Err(AllocError),
        Err(kind) => Ok(Some(kind)),
    }
}

/// Whether the kinds are the same.
fn is_same(found: ErrorKind, kind: ErrorKind) -> bool
    ensures same { result ≡ true → found ≡ kind }
    ensures other { result ≡ false → found ≡ kind → ⊥ }
{
    found == kind
}

/// Whether clap has this against the words before a place.
fn has_before<'a>(
    alloc: Global,
    words: &'a [&'a str],
    kind: ErrorKind,
    end: usize,
) -> Result<bool, AllocError>
    ensures there { IfOk result (λ has. has ≡ true → Against (take end (texts_of words.entry.now)) kind) }
    ensures not { IfOk result (λ has. has ≡ false → Otherwise (take end (texts_of words.entry.now)) kind) }
{
    let end = end.min(words.len());
    match kind_of(alloc, &words[..end])? {
        Some(found) => Ok(is_same(found, kind)),
        None => Ok(false),
    }
}

/// A place before which clap has this against the words, and with the next word too: a near one, or the end.
fn start_of<'a>(alloc: Global, words: &'a [&'a str], kind: ErrorKind) -> Result<usize, AllocError>
    requires { Against (texts_of words.now) kind }
    ensures within { IfOk result (λ place. place ≤ length words.entry.now) }
    ensures there { IfOk result (λ place. Against (take place (texts_of words.entry.now)) kind) }
    ensures after { IfOk result (λ place. Against (take (place + 1) (texts_of words.entry.now)) kind) }
{
    // No word takes so many: of many words clap takes offence at one of these.
    let near = 16;
    if near < words.len()
        && has_before(alloc, words, kind, near)?
        && has_before(alloc, words, kind, near + 1)?
    {
        return Ok(near);
    }
    Ok(words.len())
}

/// The place of the word from which on clap has this against the words.
fn place_of<'a>(alloc: Global, words: &'a [&'a str], kind: ErrorKind) -> Result<usize, AllocError>
    requires { Against (texts_of words.now) kind }
    ensures within { IfOk result (λ place. place < length words.entry.now) }
    ensures begins { IfOk result (Begins (texts_of words.entry.now) kind) }
{
    let mut place = start_of(alloc, words, kind)?;
    while place > 0 {
        place -= 1;
        if !has_before(alloc, words, kind, place)? {
            return Ok(place);
        }
    }
    // Clap has nothing against no words.
    unreachable!()
}

/// The option that the word at this place is, or that stands before it where it is none.
fn option_at<'a>(words: &'a [&'a str], place: usize) -> &'a str
    requires { place < length words.now }
    ensures { let texts = texts_of words.entry.now in
        (slice_get texts place ≡ Some result.now) ⊎ (slice_get texts (place - 1) ≡ Some result.now) }
{
    let text = words[place];
    if place == 0 || text.starts_with('-') {
        return text;
    }
    words[place - 1]
}

/// Whether the text begins with one hyphen, and not with two.
fn has_one_hyphen(text: &str) -> bool
    ensures { result ≡ has_one_hyphen text.now }
{
    match text.as_bytes() {
        [first, second, ..] => *first == b'-' && *second != b'-',
        _ => false,
    }
}

/// The value that a text is meant for which clap takes for an option: it has one hyphen, and stands behind an option of
/// the word.
fn value_meant(word: Word, before: &str, text: &str) -> Option<Value>
    ensures { result ≡ value_meant word (Some before.now) text.now }
{
    if has_one_hyphen(text) {
        Value::behind(word, before)
    } else {
        None
    }
}

/// What is wrong with words that begin with this one, at the place where clap knows no such option: a bad value, as a
/// negative number, or a word too much.
fn unknown_at<'a>(words: &'a [&'a str], word: Word, place: usize) -> Mistake<'a>
    requires leads { Leads (texts_of words.now) word }
    requires against { Against (texts_of words.now) ErrorKind.UnknownArgument }
    requires within { place < length words.now }
    requires begins { Begins (texts_of words.now) ErrorKind.UnknownArgument place }
    ensures { IsSo (texts_of words.entry.now) result }
{
    let text = words[place];
    let before = words[place.saturating_sub(1)];
    match value_meant(word, before, text) {
        Some(value) => Mistake::BadValue { word, value, text },
        None => Mistake::Unexpected { word, text },
    }
}

/// What is wrong with words that begin with this one, and that clap has this against.
pub(crate) fn offence<'a>(
    alloc: Global,
    words: &'a [&'a str],
    word: Word,
    kind: ErrorKind,
) -> Result<Mistake<'a>, AllocError>
    requires leads { Leads (texts_of words.now) word }
    requires against { Against (texts_of words.now) kind }
    ensures { IfOk result (IsSo (texts_of words.entry.now)) }
{
    match kind {
        ErrorKind::DisplayHelp => Ok(Mistake::Help { word: Some(word) }),
        ErrorKind::UnknownArgument => {
            let place = place_of(alloc, words, kind)?;
            Ok(unknown_at(words, word, place))
        }
        ErrorKind::TooManyValues => {
            let place = place_of(alloc, words, kind)?;
            let text = words[place];
            Ok(Mistake::Unexpected { word, text })
        }
        ErrorKind::InvalidValue => {
            let place = place_of(alloc, words, kind)?;
            let option = words[place];
            Ok(Mistake::NoValue { word, option })
        }
        ErrorKind::ArgumentConflict => {
            let place = place_of(alloc, words, kind)?;
            let option = option_at(words, place);
            Ok(Mistake::Repeated { word, option })
        }
        _ => Ok(Mistake::Misfit { word }),
    }
}
