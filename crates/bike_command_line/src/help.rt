//! How the program is used: all its subcommands, or one of them. The texts stand in pieces, which are joined when they
//! are written.

ghost use Rattle.std.specs.Prelude.{◌≡◌, ◌⊎◌, codes, true};
ghost use Rattle.bike_command_line.specs.Program.{form_of, has_line, tells, word_of};
ghost use Rattle.bike_command_line.specs.Usage.{text_of};
ghost use Rattle.bike_command_line.specs.declared.task.Task.{Task};

use crate::word::Word;

// Each subcommand with what it takes, and what it does.
const INIT: &str = "init FILE";

const INIT_DOES: &str =
    "                        makes the tables where FILE has none, and prints ready\n";

const CHECK: &str = "check FILE";

const CHECK_DOES: &str =
    "                       checks that FILE is a sound database of this program, and prints sound\n";

const RAISE: &str = "raise FILE";

const RAISE_DOES: &str =
    "                       makes a sound FILE of an earlier version one of the newest, and prints version with its \
     number\n";

const LINES: &str = "lines FILE";

const LINES_DOES: &str =
    "                       answers the request lines of standard input on standard output\n";

const FEED: &str = "feed FILE NAME [--at M]";

const FEED_DOES: &str = "          writes the feed NAME on standard output\n";

const DAY: &str = "day FILE WHICH DATE ZONE";

const DAY_DOES: &str =
    "         writes the table WHICH of a local day on standard output, as CSV\n";

const HISTORY: &str = "history FILE [AFTER]";

const HISTORY_DOES: &str =
    "             writes the accepted requests behind number AFTER on standard output, as request lines\n";

const IMPORT: &str = "import FILE NAME [--at M]";

const IMPORT_DOES: &str =
    "        adds the stations of a CSV table on standard input, and prints rows with their number\n";

const SERVE: &str = "serve FILE --port P [--count N]";

const SERVE_DOES: &str = "  answers HTTP requests on 127.0.0.1\n";

// The options and the values.
const AT: &str =
    "  --at M     the moment of the feed or the import in whole seconds since 1970, 0 to 253402300799; the clock's \
     where it is left out\n";

const PORT: &str = "  --port P   the port, 0 to 65535; 0 is a free one\n";

const COUNT: &str =
    "  --count N  ends after N connections, 1 to 1000000000; has no end where it is left out\n";

const FEED_IS: &str = "A feed's NAME is ";

pub(crate) const FEEDS: &str =
    "gbfs, system_information, vehicle_types, station_information, station_status, system_pricing_plans \
     or system_regions";

const DAY_WHICH: &str = "WHICH is ";

pub(crate) const TABLES: &str = "entries, rentals or requests";

const DAY_IS: &str = ", DATE is the day's date as 2024-03-31, and ZONE a POSIX time zone as \
     CET-1CEST,M3.5.0,M10.5.0/3.\n";

const HISTORY_IS: &str =
    "AFTER is a request's number, 0 to 9223372036854775807; where it is left out, that behind which the \
     history begins.\n";

const IMPORT_IS: &str =
    "An import's NAME is 1 to 36 of a-z 0-9 _ -, and stands for the caller import:NAME.\n";

const FILE_IS: &str = "FILE is an SQLite database, or :memory: for one that is gone at the end.\n";

// What stands between them.
const HEAD: &str = "usage: bikeshare ";

const ROW: &str = "  ";

const FIRST_ROW: &str = "\n\n  ";

/// The subcommand with what it takes.
pub(crate) fn form_of(word: Word) -> &'static str
    ensures { (task : Task) → word_of task ≡ word → result.now ≡ form_of task }
{
    match word {
        Word::Init => INIT,
        Word::Check => CHECK,
        Word::Raise => RAISE,
        Word::Lines => LINES,
        Word::Feed => FEED,
        Word::Day => DAY,
        Word::History => HISTORY,
        Word::Import => IMPORT,
        Word::Serve => SERVE,
    }
}

/// How the program is used, with a line for each subcommand and for each option.
pub fn usage() -> &'static [&'static str]
    ensures words { (task : Task) → tells (text_of result.now) task ≡ true }
    ensures at { has_line (text_of result.now) (codes "--at M") ≡ true }
    ensures port { has_line (text_of result.now) (codes "--port P") ≡ true }
    ensures count { has_line (text_of result.now) (codes "--count N") ≡ true }
{
    &[
        HEAD,
        "[SUBCOMMAND FILE ..]",
        FIRST_ROW,
        INIT,
        INIT_DOES,
        ROW,
        CHECK,
        CHECK_DOES,
        ROW,
        RAISE,
        RAISE_DOES,
        ROW,
        LINES,
        LINES_DOES,
        ROW,
        FEED,
        FEED_DOES,
        ROW,
        DAY,
        DAY_DOES,
        ROW,
        HISTORY,
        HISTORY_DOES,
        ROW,
        IMPORT,
        IMPORT_DOES,
        ROW,
        SERVE,
        SERVE_DOES,
        "\n",
        AT,
        PORT,
        COUNT,
        "\n",
        FEED_IS,
        FEEDS,
        ".\n",
        DAY_WHICH,
        TABLES,
        DAY_IS,
        HISTORY_IS,
        IMPORT_IS,
        FILE_IS,
        "No arguments at all mean lines :memory:.\n",
    ]
}

/// How one subcommand is used: its line, and those of its options and its values.
pub fn usage_of(word: Word) -> &'static [&'static str]
    ensures word { (task : Task) → word_of task ≡ word → tells (text_of result.now) task ≡ true }
    ensures at { (word ≡ Word.Feed) ⊎ (word ≡ Word.Import) → has_line (text_of result.now) (codes "--at M") ≡ true }
    ensures port { word ≡ Word.Serve → has_line (text_of result.now) (codes "--port P") ≡ true }
    ensures count { word ≡ Word.Serve → has_line (text_of result.now) (codes "--count N") ≡ true }
{
    match word {
        Word::Init => &[HEAD, INIT, FIRST_ROW, INIT, INIT_DOES, "\n", FILE_IS],
        Word::Check => &[HEAD, CHECK, FIRST_ROW, CHECK, CHECK_DOES, "\n", FILE_IS],
        Word::Raise => &[HEAD, RAISE, FIRST_ROW, RAISE, RAISE_DOES, "\n", FILE_IS],
        Word::Lines => &[HEAD, LINES, FIRST_ROW, LINES, LINES_DOES, "\n", FILE_IS],
        Word::Feed => &[
            HEAD, FEED, FIRST_ROW, FEED, FEED_DOES, "\n", AT, "\n", FEED_IS, FEEDS, ".\n", FILE_IS,
        ],
        Word::Day => &[
            HEAD, DAY, FIRST_ROW, DAY, DAY_DOES, "\n", DAY_WHICH, TABLES, DAY_IS, FILE_IS,
        ],
        Word::History => &[
            HEAD,
            HISTORY,
            FIRST_ROW,
            HISTORY,
            HISTORY_DOES,
            "\n",
            HISTORY_IS,
            FILE_IS,
        ],
        Word::Import => &[
            HEAD,
            IMPORT,
            FIRST_ROW,
            IMPORT,
            IMPORT_DOES,
            "\n",
            AT,
            "\n",
            IMPORT_IS,
            FILE_IS,
        ],
        Word::Serve => &[
            HEAD, SERVE, FIRST_ROW, SERVE, SERVE_DOES, "\n", PORT, COUNT, "\n", FILE_IS,
        ],
    }
}
