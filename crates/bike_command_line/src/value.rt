//! The values that stand behind the program's words.

ghost use Rattle.std.specs.Prelude.{◌≡◌};
ghost use Rattle.bike_command_line.specs.Names.{id_of, value_behind};

use crate::word::Word;

/// A value that a word takes.
#[derive(Clone, Copy, Debug, Drop)]
pub enum Value {
    /// The FILE.
    File,
    /// The NAME of a feed.
    Feed,
    /// The WHICH of a day.
    Table,
    /// The DATE of a day.
    Date,
    /// The ZONE of a day.
    Zone,
    /// The AFTER of a history.
    After,
    /// The NAME of an import.
    Import,
    /// The moment, behind `--at`.
    Moment,
    /// The port, behind `--port`.
    Port,
    /// The number of connections, behind `--count`.
    Count,
}

impl Value {
    /// Under which id clap finds it.
    pub(crate) fn id(self) -> &'static str
        ensures { result.now ≡ id_of self }
    {
        match self {
            Value::File => "file",
            Value::Feed | Value::Import => "name",
            Value::Table => "which",
            Value::Date => "date",
            Value::Zone => "zone",
            Value::After => "after",
            Value::Moment => "at",
            Value::Port => "port",
            Value::Count => "count",
        }
    }

    /// The value that stands behind an option of the word; none where the word has no such option.
    #[tactic(auto, unfolding(crate::specs::Names::value_behind))]
    pub(crate) fn behind(word: Word, option: &str) -> Option<Value>
        ensures { result ≡ value_behind word option.now }
    {
        match word {
            Word::Init | Word::Check | Word::Raise | Word::Lines | Word::Day | Word::History =>
                None,
            Word::Feed | Word::Import => match option {
                "--at" => Some(Value::Moment),
                _ => None,
            },
            Word::Serve => match option {
                "--port" => Some(Value::Port),
                "--count" => Some(Value::Count),
                _ => None,
            },
        }
    }
}
