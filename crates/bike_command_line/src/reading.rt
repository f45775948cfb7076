//! What the words ask for.

ghost use Rattle.std.specs.Prelude.{◌≡◌, ◌⊎◌, ◌<◌, List, [], length, slice_get, option_and_then};
ghost use Rattle.std.specs.Prelude.{IfOk, IfErr, IsOkAnd, MatchResult, Some, None, Err, codes, false};
ghost use Rattle.std.specs.Str.Parse.{starts_with_minus};
ghost use Rattle.clap.specs.Words.{Text, fault_of, subcommand_of, subcommand_rows_of};
ghost use Rattle.bike_command_line.specs.Program.{IsWithin, program, words_for};
ghost use Rattle.bike_command_line.specs.Asked.{Ask, AskNothing, IsFound, IsNothing, IsTold, name_in, task_of};
ghost use Rattle.bike_command_line.specs.Asked.{texts_of, value_in, want_of};
ghost use Rattle.bike_command_line.specs.Names.{word_name, word_named};
ghost use Rattle.bike_command_line.specs.BadValue.{IsWrong};
ghost use Rattle.bike_command_line.specs.Told.{Against, IsOfValue, IsSo, Leads};

use crate::mistake::Mistake;
use crate::parsing::{matches_of, offence};
use crate::task::{BadValue, FileTask, Task, task_of, wanted_in};
use crate::value::Value;
use crate::word::Word;
use clap::ArgMatches;
use clap::error::ErrorKind;
use std::alloc::{AllocError, Global};

/// What the program is asked to do.
#[derive(Clone, Copy)]
pub struct Words<'a> {
    /// What is done.
    pub task: Task<'a>,
    /// The database's file, or `:memory:`.
    pub file: &'a str,
}

/// Why the words ask for nothing.
#[derive(Clone, Copy, Debug, Drop)]
pub enum WordsFault<'a> {
    /// They are no word with its FILE and its other values, or a wish for help: that is told.
    Usage(Mistake<'a>),
    /// Memory was refused.
    NoMemory,
}

/// The word that was found.
fn word_in(matches: &ArgMatches<'_>) -> Option<Word>
    ensures { result ≡ option_and_then word_named (name_in (subcommand_rows_of matches.now)) }
{
    Word::read(matches.subcommand_name()?)
}

/// What the matches ask of the word.
fn words_of<'a>(word: Word, matches: &ArgMatches<'a>) -> Result<Words<'a>, BadValue<'a>>
    ensures task { let found = subcommand_rows_of matches.now in
        IfOk result (λ words. task_of (word_name word) found ≡ Some (want_of words.task)) }
    ensures file { let found = subcommand_rows_of matches.now in
        IfOk result (λ words. value_in found (codes "file") ≡ Some words.file.now) }
    ensures none { let found = subcommand_rows_of matches.now in
        IfErr result (λ _. (value_in found (codes "file") ≡ None) ⊎ (task_of (word_name word) found ≡ None)) }
    ensures wrong { IfErr result (IsWrong word (subcommand_rows_of matches.now)) }
{
    let file = wanted_in(matches, Value::File)?;
    match task_of(word, matches) {
        Ok(task) => Ok(Words { task, file }),
        Err(wrong) => Err(wrong),
    }
}

/// What the matches ask for, of words of which this is the first.
fn words_in<'a>(matches: &ArgMatches<'a>, first: &'a str) -> Result<Words<'a>, Mistake<'a>>
    ensures some { IfOk result (λ words. IsFound (subcommand_rows_of matches.now) words.task words.file.now) }
    ensures none { IfErr result (λ _. IsNothing (subcommand_rows_of matches.now)) }
    ensures told { (texts : List Text) → slice_get texts 0 ≡ Some first.entry.now → fault_of program texts ≡ []
        → subcommand_rows_of matches.now ≡ subcommand_of program texts → IfErr result (IsSo texts) }
{
    let Some(word) = word_in(matches) else {
        return Err(Mistake::UnknownWord { text: first });
    };
    match words_of(word, matches) {
        Ok(words) => Ok(words),
        Err(BadValue::Missing(value)) => Err(Mistake::Missing { word, value }),
        Err(BadValue::Bad(value, text)) => Err(Mistake::BadValue { word, value, text }),
    }
}

/// What is wrong with words, of which this is the first, that clap has this against.
fn mistake_in<'a>(
    alloc: Global,
    words: &'a [&'a str],
    first: &'a str,
    kind: ErrorKind,
) -> Result<Mistake<'a>, AllocError>
    requires first { slice_get (texts_of words.now) 0 ≡ Some first.now }
    requires against { Against (texts_of words.now) kind }
    ensures { IfOk result (IsSo (texts_of words.entry.now)) }
{
    if let Some(word) = Word::read(first) {
        return offence(alloc, words, word, kind);
    }
    match kind {
        ErrorKind::DisplayHelp => Ok(Mistake::Help { word: None }),
        _ => Ok(Mistake::UnknownWord { text: first }),
    }
}

/// Why words ask for nothing, of which this is the first, and that clap has this against.
fn fault_in<'a>(
    alloc: Global,
    words: &'a [&'a str],
    first: &'a str,
    kind: ErrorKind,
) -> WordsFault<'a>
    requires first { slice_get (texts_of words.now) 0 ≡ Some first.now }
    requires refused { (kind ≡ ErrorKind.OutOfMemory) ⊎ Against (texts_of words.now) kind }
    ensures memory { fault_of program (texts_of words.entry.now) ≡ [] → result ≡ WordsFault.NoMemory }
    ensures told { (mistake : Mistake) → result ≡ WordsFault.Usage mistake → IsSo (texts_of words.entry.now) mistake }
{
    match kind {
        ErrorKind::OutOfMemory => WordsFault::NoMemory,
        _ => match mistake_in(alloc, words, first, kind) {
            Ok(mistake) => WordsFault::Usage(mistake),
            Err(_) => WordsFault::NoMemory,
        },
    }
}

/// What the words ask for; the program's own name is none of them. No words are the lines of a database in memory.
/// `Usage` comes where clap refuses the words, where they are a wish for help, where a value is missing, where a feed's
/// or a table's name is none, where an import's name is no identifier, and where a number isn't the decimal of one
/// within its bounds. It tells which word or value is wrong. `NoMemory` comes where memory is refused.
pub fn read_words<'a>(alloc: Global, words: &'a [&'a str]) -> Result<Words<'a>, WordsFault<'a>>
    // What the words ask for.
    ensures none { words.entry.now ≡ []
        → IsOkAnd result (λ asked. (asked.task ≡ Task.OnFile FileTask.Lines) × (asked.file.now ≡ codes ":memory:")) }
    ensures some { 0 < length words.entry.now
        → IfOk result (λ asked. Ask (texts_of words.entry.now) asked.task asked.file.now) }
    ensures within { IfOk result (λ asked. IsWithin asked.task) }
    // A mistake: the words ask for nothing, and what is said of them is so.
    ensures refused { (mistake : Mistake) → result ≡ Err (WordsFault.Usage mistake)
        → AskNothing (texts_of words.entry.now) }
    // The plain words of each task are read as it.
    ensures plain { (task : Task) (file : Text) → texts_of words.entry.now ≡ words_for task file
        → starts_with_minus file ≡ false → IsWithin task → IsTold task file result }
    // What a mistake says is so, and of a value where the words lead to one.
    ensures told { (mistake : Mistake) → result ≡ Err (WordsFault.Usage mistake)
        → IsSo (texts_of words.entry.now) mistake }
    ensures value { (mistake : Mistake) (word : Word) → let texts = texts_of words.entry.now in
        Leads texts word → fault_of program texts ≡ [] → result ≡ Err (WordsFault.Usage mistake) → IsOfValue mistake }
{
    if words.is_empty() {
        return Ok(Words {
            task: Task::OnFile(FileTask::Lines),
            file: ":memory:",
        });
    }
    let first = words[0];
    match matches_of(alloc, words) {
        Ok(matches) => {
            let asked = words_in(&matches, first);
            // What is asked borrows nothing of it.
            drop(matches);
            match asked {
                Ok(words) => Ok(words),
                Err(mistake) => Err(WordsFault::Usage(mistake)),
            }
        }
        Err(kind) => Err(fault_in(alloc, words, first, kind)),
    }
}
