//! How a mistake is reported: a line that says what is wrong and what is wanted, and the usage of the subcommand.

use crate::help::{FEEDS, TABLES, form_of, usage, usage_of};
use crate::mistake::Mistake;
use crate::value::Value;
use crate::word::Word;
use std::fmt;

/// The names of the subcommands.
const SUBCOMMANDS: &str = "init, check, raise, lines, feed, day, history, import or serve";

/// How many characters of an argument are shown.
const MOST_SHOWN: usize = 60;

/// An argument as it is shown: in characters that are seen, on one line, and cut where it is long.
#[derive(Drop)]
struct DisplayedWord<'a>(&'a str);

impl fmt::Display for DisplayedWord<'_> {
    fn fmt<W: fmt::Write>(&self, f: &mut fmt::Formatter<W>) -> fmt::Result {
        if self.0.is_empty() {
            return f.write_str("(empty)");
        }
        for (place, letter) in self.0.chars().enumerate() {
            if place == MOST_SHOWN {
                return f.write_str("..");
            }
            if letter == '\'' || letter == '"' {
                f.write_char(letter)?;
                continue;
            }
            for shown in letter.escape_debug() {
                f.write_char(shown)?;
            }
        }
        Ok(())
    }
}

/// A text that stands in pieces.
#[derive(Drop)]
struct TextPieces(&'static [&'static str]);

impl fmt::Display for TextPieces {
    fn fmt<W: fmt::Write>(&self, f: &mut fmt::Formatter<W>) -> fmt::Result {
        for piece in self.0 {
            f.write_str(piece)?;
        }
        Ok(())
    }
}

/// The name of an option: what stands before a `=`.
fn name_of(option: &str) -> &str {
    match option.split_once('=') {
        Some((name, _)) => name,
        None => option,
    }
}

/// What is wanted behind an option of the subcommand.
fn wanted_behind(word: Word, option: &str) -> &'static str {
    match Value::behind(word, option) {
        Some(value) => wanted_as(value),
        None => "a value",
    }
}

/// What stands for a value in the usage.
fn sign_of(value: Value) -> &'static str {
    match value {
        Value::File => "FILE",
        Value::Feed | Value::Import => "NAME",
        Value::Table => "WHICH",
        Value::Date => "DATE",
        Value::Zone => "ZONE",
        Value::After => "AFTER",
        Value::Moment => "--at",
        Value::Port => "--port",
        Value::Count => "--count",
    }
}

/// What is wanted as a value.
fn wanted_as(value: Value) -> &'static str {
    match value {
        Value::File => "an SQLite database, or :memory:",
        Value::Feed => FEEDS,
        Value::Table => TABLES,
        Value::Date => "a day's date as 2024-03-31",
        Value::Zone => "a POSIX time zone as CET-1CEST,M3.5.0,M10.5.0/3",
        Value::After => "a whole number from 0 to 9223372036854775807, with no leading zeros",
        Value::Import => "1 to 36 of a-z 0-9 _ -",
        Value::Moment => "a whole number from 0 to 253402300799, with no leading zeros",
        Value::Port => "a whole number from 0 to 65535, with no leading zeros",
        Value::Count => "a whole number from 1 to 1000000000, with no leading zeros",
    }
}

/// The line that says what is wrong and what is wanted; none of a wish for help.
#[derive(Drop)]
struct Line<'a>(Mistake<'a>);

impl fmt::Display for Line<'_> {
    fn fmt<W: fmt::Write>(&self, f: &mut fmt::Formatter<W>) -> fmt::Result {
        match self.0 {
            Mistake::Help { .. } => Ok(()),
            Mistake::NoText => f.write_str("bikeshare: an argument isn't UTF-8; wanted is UTF-8\n"),
            Mistake::UnknownWord { text } => {
                let first = DisplayedWord(text);
                writeln!(
                    f,
                    "bikeshare: {first} is no subcommand of bikeshare; wanted is {SUBCOMMANDS}"
                )
            }
            Mistake::Unexpected { word, text } => {
                let (extra, form) = (DisplayedWord(text), form_of(word));
                writeln!(f, "bikeshare: {extra} is unexpected; wanted is {form}")
            }
            Mistake::NoValue { word, option } => {
                let (name, wanted) = (DisplayedWord(option), wanted_behind(word, option));
                writeln!(f, "bikeshare: {name} has no value; wanted is {wanted}")
            }
            Mistake::Repeated { option, .. } => {
                let name = DisplayedWord(name_of(option));
                writeln!(f, "bikeshare: {name} is given twice; wanted is one value")
            }
            Mistake::Misfit { word } => {
                let (name, form) = (word.name(), form_of(word));
                writeln!(
                    f,
                    "bikeshare: the arguments are none of {name}; wanted is {form}"
                )
            }
            Mistake::Missing { value, .. } => {
                let (sign, wanted) = (sign_of(value), wanted_as(value));
                writeln!(f, "bikeshare: {sign} is missing; wanted is {wanted}")
            }
            Mistake::BadValue { value, text, .. } => {
                let (sign, given, wanted) = (sign_of(value), DisplayedWord(text), wanted_as(value));
                writeln!(f, "bikeshare: {sign} is {given}; wanted is {wanted}")
            }
        }
    }
}

/// What is wrong and what is wanted, on a line, and how the subcommand is used, or the program if it belongs to none.
/// Of a wish for help the usage alone.
impl fmt::Display for Mistake<'_> {
    fn fmt<W: fmt::Write>(&self, f: &mut fmt::Formatter<W>) -> fmt::Result {
        let usage = match self.word() {
            Some(word) => usage_of(word),
            None => usage(),
        };
        let (line, usage) = (Line(*self), TextPieces(usage));
        write!(f, "{line}{usage}")
    }
}
