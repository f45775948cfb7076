//! What is wrong with words that ask for nothing.

ghost use Rattle.std.specs.Prelude.{◌≡◌};
ghost use Rattle.bike_command_line.specs.Told.{word_told};

use crate::value::Value;
use crate::word::Word;

/// What is wrong with words that ask for nothing, or that help is wished for.
#[derive(Clone, Copy, Debug, Drop)]
pub enum Mistake<'a> {
    /// Nothing is wrong: help is wished for.
    Help {
        /// With which word, or none for the whole program.
        word: Option<Word>,
    },
    /// The first word is none of the program's.
    UnknownWord {
        /// The first word.
        text: &'a str,
    },
    /// There is a word too much, or an option that isn't the word's and doesn't stand as the value of one.
    Unexpected {
        /// The word that it stands behind.
        word: Word,
        /// What stands there.
        text: &'a str,
    },
    /// An option has no value.
    NoValue {
        /// The word whose option it is.
        word: Word,
        /// The option as it stands there, with its hyphens.
        option: &'a str,
    },
    /// An option is given twice.
    Repeated {
        /// The word whose option it is.
        word: Word,
        /// The option as it stands there the second time.
        option: &'a str,
    },
    /// The words are none that the word takes, for another reason.
    Misfit {
        /// The word.
        word: Word,
    },
    /// A value that the word wants isn't there.
    Missing {
        /// The word.
        word: Word,
        /// The value.
        value: Value,
    },
    /// A value is none of its kind. A text that begins with a hyphen, as a negative number, is told so behind its
    /// option.
    BadValue {
        /// The word.
        word: Word,
        /// The value.
        value: Value,
        /// What stands there.
        text: &'a str,
    },
    /// A word isn't UTF-8. `read_words` is given texts, and tells of none.
    NoText,
}

impl Mistake<'_> {
    /// The word whose usage belongs to it; none where that of the whole program does.
    pub(crate) fn word(&self) -> Option<Word>
        ensures { result ≡ word_told self.now }
    {
        match self {
            Mistake::Help { word } => *word,
            Mistake::UnknownWord { .. } | Mistake::NoText => None,
            Mistake::Unexpected { word, .. }
            | Mistake::NoValue { word, .. }
            | Mistake::Repeated { word, .. }
            | Mistake::Misfit { word }
            | Mistake::Missing { word, .. }
            | Mistake::BadValue { word, .. } => Some(*word),
        }
    }
}
