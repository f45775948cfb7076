//! The names of the program's words.

ghost use Rattle.std.specs.Prelude.{◌≡◌};
ghost use Rattle.bike_command_line.specs.Names.{word_name, word_named};

/// A word of the program.
#[derive(Clone, Copy, Debug, Drop)]
pub enum Word {
    /// Makes the tables.
    Init,
    /// Checks a database.
    Check,
    /// Raises a database to the newest version.
    Raise,
    /// Answers request lines.
    Lines,
    /// Writes a feed.
    Feed,
    /// Writes a table of a day.
    Day,
    /// Writes accepted requests.
    History,
    /// Adds stations.
    Import,
    /// Answers HTTP requests.
    Serve,
}

impl Word {
    /// Its name.
    pub fn name(self) -> &'static str
        ensures { result.now ≡ word_name self }
    {
        match self {
            Word::Init => "init",
            Word::Check => "check",
            Word::Raise => "raise",
            Word::Lines => "lines",
            Word::Feed => "feed",
            Word::Day => "day",
            Word::History => "history",
            Word::Import => "import",
            Word::Serve => "serve",
        }
    }

    /// The word of that name; none where no word has it.
    #[tactic(auto, unfolding(crate::specs::Names::word_named))]
    pub(crate) fn read(text: &str) -> Option<Word>
        ensures { result ≡ word_named text.now }
    {
        match text {
            "init" => Some(Word::Init),
            "check" => Some(Word::Check),
            "raise" => Some(Word::Raise),
            "lines" => Some(Word::Lines),
            "feed" => Some(Word::Feed),
            "day" => Some(Word::Day),
            "history" => Some(Word::History),
            "import" => Some(Word::Import),
            "serve" => Some(Word::Serve),
            _ => None,
        }
    }
}
