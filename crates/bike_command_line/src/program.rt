//! The program, as it is told to clap.

ghost use Rattle.std.specs.Prelude.{◌≡◌, IfOk, false};
ghost use Rattle.clap.specs.Words.{App, Rule, app_of, rule_of, with_rule, with_subcommand};
ghost use Rattle.clap.specs.declared.builder.command.Command.TheViews.{out-Command as fields_of};
ghost use Rattle.bike_command_line.specs.Program.{day_word, history_word, named_word, on_file, option_rule, program};
ghost use Rattle.bike_command_line.specs.Program.{serve_word, value_rule};

use clap::{Arg, Command};
use std::alloc::{AllocError, Global};

/// A value that is told by its place. None is required of clap, which wouldn't tell which is missing: what is missing
/// is told where the values are read.
fn value<'a>(alloc: Global, id: &'a str) -> Arg<'a>
    ensures rule { rule_of result ≡ value_rule id.entry.now }
    ensures local { result.global ≡ false }
{
    Arg::new(alloc, id)
}

/// An option with a value.
fn option<'a>(alloc: Global, id: &'a str) -> Arg<'a>
    ensures rule { rule_of result ≡ option_rule id.entry.now }
    ensures local { result.global ≡ false }
{
    Arg::new(alloc, id).long(id)
}

// These two take a result and give one, so that a subcommand's arguments read as one chain.
/// The word with that value or option besides.
fn with_arg<'a>(
    word: Result<Command<'a>, AllocError>,
    arg: Arg<'a>,
) -> Result<Command<'a>, AllocError>
    ensures app { (shape : App) (rule : Rule) → rule_of arg.entry ≡ rule → arg.entry.global ≡ false
        → IfOk word.entry (λ w. app_of w ≡ shape) → IfOk result (λ c. app_of c ≡ with_rule shape rule) }
    ensures local { arg.entry.global ≡ false → IfOk word.entry (λ w. (fields_of w).has_globals ≡ false)
        → IfOk result (λ c. (fields_of c).has_globals ≡ false) }
{
    let word = word?;
    word.arg(arg)
}

/// The program with that word besides.
fn with_word<'a>(
    program: Result<Command<'a>, AllocError>,
    word: Result<Command<'a>, AllocError>,
) -> Result<Command<'a>, AllocError>
    ensures { (app shape : App) → IfOk program.entry (λ p. app_of p ≡ app) → IfOk word.entry (λ w. app_of w ≡ shape)
        → IfOk word.entry (λ w. (fields_of w).has_globals ≡ false)
        → IfOk result (λ c. app_of c ≡ with_subcommand app shape.top) }
{
    let word = word?;
    let program = program?;
    program.subcommand(word)
}

/// The word of this name, which wants a FILE.
fn on_file<'a>(alloc: Global, name: &'a str) -> Result<Command<'a>, AllocError>
    ensures app { IfOk result (λ c. app_of c ≡ on_file name.entry.now) }
    ensures local { IfOk result (λ c. (fields_of c).has_globals ≡ false) }
{
    Command::new(alloc, name).arg(value(alloc, "file"))
}

/// The word of this name, which wants a FILE and a NAME, and may have a moment.
fn named_word<'a>(alloc: Global, name: &'a str) -> Result<Command<'a>, AllocError>
    ensures app { IfOk result (λ c. app_of c ≡ named_word name.entry.now) }
    ensures local { IfOk result (λ c. (fields_of c).has_globals ≡ false) }
{
    let word = with_arg(on_file(alloc, name), value(alloc, "name"));
    with_arg(word, option(alloc, "at"))
}

/// The word for a table of a day.
fn day_word<'a>(alloc: Global) -> Result<Command<'a>, AllocError>
    ensures app { IfOk result (λ c. app_of c ≡ day_word) }
    ensures local { IfOk result (λ c. (fields_of c).has_globals ≡ false) }
{
    let word = with_arg(on_file(alloc, "day"), value(alloc, "which"));
    let word = with_arg(word, value(alloc, "date"));
    with_arg(word, value(alloc, "zone"))
}

/// The word for the history.
fn history_word<'a>(alloc: Global) -> Result<Command<'a>, AllocError>
    ensures app { IfOk result (λ c. app_of c ≡ history_word) }
    ensures local { IfOk result (λ c. (fields_of c).has_globals ≡ false) }
{
    with_arg(on_file(alloc, "history"), value(alloc, "after"))
}

/// The word for serving HTTP.
fn serve_word<'a>(alloc: Global) -> Result<Command<'a>, AllocError>
    ensures app { IfOk result (λ c. app_of c ≡ serve_word) }
    ensures local { IfOk result (λ c. (fields_of c).has_globals ≡ false) }
{
    let word = with_arg(on_file(alloc, "serve"), option(alloc, "port"));
    with_arg(word, option(alloc, "count"))
}

/// The program with its words.
pub(crate) fn program<'a>(alloc: Global) -> Result<Command<'a>, AllocError>
    ensures { IfOk result (λ c. app_of c ≡ program) }
{
    let program = Command::new(alloc, "bikeshare").no_binary_name(true);
    let program = with_word(Ok(program), on_file(alloc, "init"));
    let program = with_word(program, on_file(alloc, "check"));
    let program = with_word(program, on_file(alloc, "raise"));
    let program = with_word(program, on_file(alloc, "lines"));
    let program = with_word(program, named_word(alloc, "feed"));
    let program = with_word(program, day_word(alloc));
    let program = with_word(program, history_word(alloc));
    let program = with_word(program, named_word(alloc, "import"));
    with_word(program, serve_word(alloc))
}
