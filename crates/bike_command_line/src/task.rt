//! What the program is asked to do, and what of that stands in clap's matches.

ghost use Rattle.std.specs.Prelude.{◌≡◌, MatchResult, None, Some, option_map};
ghost use Rattle.clap.specs.Words.{subcommand_rows_of};
ghost use Rattle.bike_command_line.specs.Asked.{after_in, count_in, day_task, feed_in, feed_task, history_task};
ghost use Rattle.bike_command_line.specs.Asked.{import_in, import_task, moment_in, port_in, serve_task};
ghost use Rattle.bike_command_line.specs.Asked.{table_in, task_of, value_in, want_of};
ghost use Rattle.bike_command_line.specs.Names.{id_of, word_name};
ghost use Rattle.bike_command_line.specs.BadValue.{IsRead, IsWrong};

use crate::value::Value;
use crate::word::Word;
use bike_day_texts::DayTable;
use bike_feed_texts::Feed;
use bike_fields::Ident;
use bike_fixed::{Moment, read_whole};
use clap::ArgMatches;

/// After how many connections the serving ends at most, where it has an end.
pub const MOST_CONNECTIONS: u64 = 1_000_000_000;

/// The greatest number behind which the history is asked for, which is the greatest that a request may have.
pub const GREATEST_AFTER: u64 = 9_223_372_036_854_775_807;

/// What the program does.
#[derive(Clone, Copy)]
pub enum Task<'a> {
    /// Does a task over the database, and ends.
    OnFile(FileTask<'a>),
    /// Answers HTTP requests.
    Serve {
        /// The port that is listened on, or 0 for a free one.
        port: u16,
        /// After how many connections that ends, from 1 to `MOST_CONNECTIONS`, or none for no end.
        count: Option<u32>,
    },
}

/// What the program does with its file.
#[derive(Clone, Copy)]
pub enum FileTask<'a> {
    /// Makes the tables where there are none.
    Init,
    /// Checks that the database is sound.
    Check,
    /// Makes a sound database of an earlier version one of the newest.
    Raise,
    /// Answers the request lines of standard input.
    Lines,
    /// Writes a feed.
    Feed {
        /// Which one.
        feed: Feed,
        /// The feed's moment, or none for the clock's.
        at: Option<Moment>,
    },
    /// Writes a table of a day.
    Day {
        /// Which one.
        table: DayTable,
        /// The day's date, `YYYY-MM-DD`. Any text is taken.
        date: &'a str,
        /// The POSIX time zone in which that is a day. Any text is taken.
        zone: &'a str,
    },
    /// Writes the accepted requests of the history as request lines.
    History {
        /// Those of a later number than this, which is at most `GREATEST_AFTER`, or none for the history's begin.
        after: Option<u64>,
    },
    /// Adds the stations of standard input.
    Import {
        /// The import's name, an identifier.
        name: &'a str,
        /// The import's moment, or none for the clock's.
        at: Option<Moment>,
    },
}

/// What is wrong with a value behind a word.
#[derive(Clone, Copy, Debug, Drop)]
pub(crate) enum BadValue<'a> {
    /// There is none, and it is wanted.
    Missing(Value),
    /// This text is none of its kind.
    Bad(Value, &'a str),
}

/// What was found behind the word under this id.
fn value_in<'a>(matches: &ArgMatches<'a>, id: &str) -> Option<&'a str>
    ensures { option_map (λ value. value.now) result ≡ value_in (subcommand_rows_of matches.now) id.now }
{
    match matches.subcommand() {
        Some((_, found)) => found.get_str(id),
        None => None,
    }
}

/// The text of a value that is wanted.
pub(crate) fn wanted_in<'a>(matches: &ArgMatches<'a>, value: Value) -> Result<&'a str, BadValue<'a>>
    ensures { let given = value_in (subcommand_rows_of matches.now) (id_of value) in
        MatchResult result (λ text. given ≡ Some text.now)
        (λ wrong. (given ≡ None) × (wrong ≡ BadValue.Missing value)) }
{
    match value_in(matches, value.id()) {
        Some(text) => Ok(text),
        None => Err(BadValue::Missing(value)),
    }
}

/// The feed of the NAME.
fn feed_in<'a>(matches: &ArgMatches<'a>) -> Result<Feed, BadValue<'a>>
    ensures { IsRead Word.Feed (subcommand_rows_of matches.now) (λ feed. feed) feed_in result }
{
    let text = wanted_in(matches, Value::Feed)?;
    Feed::read(text).ok_or(BadValue::Bad(Value::Feed, text))
}

/// The moment of a feed or an import, which may be left out.
fn moment_in<'a>(matches: &ArgMatches<'a>) -> Result<Option<Moment>, BadValue<'a>>
    ensures feed { IsRead Word.Feed (subcommand_rows_of matches.now) (λ at. at) moment_in result }
    ensures import { IsRead Word.Import (subcommand_rows_of matches.now) (λ at. at) moment_in result }
{
    let Some(text) = value_in(matches, "at") else {
        return Ok(None);
    };
    match Moment::read(text) {
        Some(at) => Ok(Some(at)),
        None => Err(BadValue::Bad(Value::Moment, text)),
    }
}

/// The table of the WHICH.
fn table_in<'a>(matches: &ArgMatches<'a>) -> Result<DayTable, BadValue<'a>>
    ensures { IsRead Word.Day (subcommand_rows_of matches.now) (λ table. table) table_in result }
{
    let text = wanted_in(matches, Value::Table)?;
    DayTable::read(text).ok_or(BadValue::Bad(Value::Table, text))
}

/// The name of an import.
fn import_in<'a>(matches: &ArgMatches<'a>) -> Result<&'a str, BadValue<'a>>
    ensures { IsRead Word.Import (subcommand_rows_of matches.now) (λ name. name.now) import_in result }
{
    let text = wanted_in(matches, Value::Import)?;
    Ident::checked(text).ok_or(BadValue::Bad(Value::Import, text))
}

/// The number behind which the history is asked for, which may be left out.
fn after_in<'a>(matches: &ArgMatches<'a>) -> Result<Option<u64>, BadValue<'a>>
    ensures { IsRead Word.History (subcommand_rows_of matches.now) (λ after. after) after_in result }
{
    let Some(text) = value_in(matches, "after") else {
        return Ok(None);
    };
    match read_whole(text, 0, GREATEST_AFTER) {
        Some(number) => Ok(Some(number)),
        None => Err(BadValue::Bad(Value::After, text)),
    }
}

/// The port.
fn port_in<'a>(matches: &ArgMatches<'a>) -> Result<u16, BadValue<'a>>
    ensures { IsRead Word.Serve (subcommand_rows_of matches.now) (λ port. port) port_in result }
{
    let text = wanted_in(matches, Value::Port)?;
    match read_whole(text, 0, 65_535) {
        Some(port) => Ok(port as u16),
        None => Err(BadValue::Bad(Value::Port, text)),
    }
}

/// The number of connections, which may be left out.
fn count_in<'a>(matches: &ArgMatches<'a>) -> Result<Option<u32>, BadValue<'a>>
    ensures { IsRead Word.Serve (subcommand_rows_of matches.now) (λ count. count) count_in result }
{
    let Some(text) = value_in(matches, "count") else {
        return Ok(None);
    };
    match read_whole(text, 1, MOST_CONNECTIONS) {
        Some(count) => Ok(Some(count as u32)),
        None => Err(BadValue::Bad(Value::Count, text)),
    }
}

/// The feed and its moment.
fn feed_task<'a>(matches: &ArgMatches<'a>) -> Result<Task<'a>, BadValue<'a>>
    ensures { IsRead Word.Feed (subcommand_rows_of matches.now) want_of feed_task result }
{
    let feed = feed_in(matches)?;
    let at = moment_in(matches)?;
    Ok(Task::OnFile(FileTask::Feed { feed, at }))
}

/// The table and its day.
fn day_task<'a>(matches: &ArgMatches<'a>) -> Result<Task<'a>, BadValue<'a>>
    ensures { IsRead Word.Day (subcommand_rows_of matches.now) want_of day_task result }
{
    let table = table_in(matches)?;
    let date = wanted_in(matches, Value::Date)?;
    let zone = wanted_in(matches, Value::Zone)?;
    Ok(Task::OnFile(FileTask::Day { table, date, zone }))
}

/// The number behind which the history is asked for.
fn history_task<'a>(matches: &ArgMatches<'a>) -> Result<Task<'a>, BadValue<'a>>
    ensures { IsRead Word.History (subcommand_rows_of matches.now) want_of history_task result }
{
    let after = after_in(matches)?;
    Ok(Task::OnFile(FileTask::History { after }))
}

/// The import's name and its moment.
fn import_task<'a>(matches: &ArgMatches<'a>) -> Result<Task<'a>, BadValue<'a>>
    ensures { IsRead Word.Import (subcommand_rows_of matches.now) want_of import_task result }
{
    let name = import_in(matches)?;
    let at = moment_in(matches)?;
    Ok(Task::OnFile(FileTask::Import { name, at }))
}

/// The port and the number of connections.
fn serve_task<'a>(matches: &ArgMatches<'a>) -> Result<Task<'a>, BadValue<'a>>
    ensures { IsRead Word.Serve (subcommand_rows_of matches.now) want_of serve_task result }
{
    let port = port_in(matches)?;
    let count = count_in(matches)?;
    Ok(Task::Serve { port, count })
}

/// The task of the word, by what stands behind it.
#[tactic(auto, unfolding(crate::specs::Asked::task_of))]
pub(crate) fn task_of<'a>(word: Word, matches: &ArgMatches<'a>) -> Result<Task<'a>, BadValue<'a>>
    ensures { IsRead word (subcommand_rows_of matches.now) want_of (task_of (word_name word)) result }
{
    match word {
        Word::Init => Ok(Task::OnFile(FileTask::Init)),
        Word::Check => Ok(Task::OnFile(FileTask::Check)),
        Word::Raise => Ok(Task::OnFile(FileTask::Raise)),
        Word::Lines => Ok(Task::OnFile(FileTask::Lines)),
        Word::Feed => feed_task(matches),
        Word::Day => day_task(matches),
        Word::History => history_task(matches),
        Word::Import => import_task(matches),
        Word::Serve => serve_task(matches),
    }
}
