//! What some words ask for.

ghost use Rattle.std.specs.Prelude.{◌≡◌, ◌∷◌, [], List, Some, None, codes, false};
ghost use Rattle.std.specs.Borrow.{Bor};
ghost use Rattle.std.specs.Str.Parse.{starts_with_minus};
ghost use Rattle.clap.specs.Words.{Text};
ghost use Rattle.bike_command_line.specs.Program.{IsWithin, name_of, words_for};
ghost use Rattle.bike_command_line.specs.Asked.{Ask, AskNothing, parted};

use crate::task::{FileTask, Task};
use bike_day_texts::DayTable;
use bike_feed_texts::Feed;

/// What some words ask for: a word alone, a second FILE, a flag, another word and a wish for help ask for nothing, and
/// so do a NAME that is no feed or no identifier, a WHICH that is no table, no ZONE, a number out of its bounds, with a
/// leading zero or with a sign, no port, a second value and another word's option. Any DATE and any ZONE are taken,
/// behind `--` also one that begins with a hyphen. A FILE that begins with a hyphen stands behind `--`, and an option
/// may stand before the FILE. The numbers of what is asked lie within their bounds.
pub fn word_laws()
    // Each task that is spelled as usual is read, and what is read lies within its bounds.
    ensures file { (task : Task) (file : Text) → starts_with_minus file ≡ false → IsWithin task
        → Ask (words_for task file) task file }
    ensures within { (texts : List Text) (task : Task) (file : Text) → Ask texts task file → IsWithin task }
    // A FILE behind `--`; nothing without a FILE, or with two, a flag, another word or a wish for help.
    ensures dashes { Ask (parted (codes "init -- -f")) (Task.OnFile FileTask.Init) (codes "-f") }
    ensures bare { (task : Task) → AskNothing (name_of task ∷ []) }
    ensures second { AskNothing (parted (codes "check f g")) }
    ensures flag { AskNothing (parted (codes "init -f")) }
    ensures other { AskNothing (parted (codes "start f")) }
    ensures help { AskNothing (parted (codes "help")) }
    ensures flag_help { AskNothing (parted (codes "--help")) }
    ensures word_help { AskNothing (parted (codes "lines --help")) }
    // A feed, now or at a moment; nothing without a known NAME, or with a moment out of its bounds.
    ensures feed { Ask (parted (codes "feed f station_status"))
        (Task.OnFile (FileTask.Feed Feed.StationStatus None)) (codes "f") }
    ensures feed_at { Ask (parted (codes "feed f station_status --at 1700000000"))
        (Task.OnFile (FileTask.Feed Feed.StationStatus (Some 1700000000))) (codes "f") }
    ensures no_feed { AskNothing (parted (codes "feed f nothing")) }
    ensures no_name { AskNothing (parted (codes "feed f")) }
    ensures signed { AskNothing (parted (codes "feed f gbfs --at -1")) }
    ensures tied { AskNothing (parted (codes "feed f gbfs --at=-1")) }
    ensures late { AskNothing (parted (codes "feed f gbfs --at 253402300800")) }
    // A day table; nothing without a known WHICH and a ZONE.
    ensures day { (date zone : Bor Text) → date.now ≡ codes "x" → zone.now ≡ codes "-1"
        → Ask (parted (codes "day -- f rentals x -1"))
        (Task.OnFile (FileTask.Day DayTable.Rentals date zone)) (codes "f") }
    ensures no_table { AskNothing (parted (codes "day f riders 2024-03-31 UTC0")) }
    ensures no_zone { AskNothing (parted (codes "day f entries 2024-03-31")) }
    // The history from its begin, or behind a number; nothing for one out of its bounds, with a leading zero or a sign.
    ensures history { Ask (parted (codes "history f")) (Task.OnFile (FileTask.History None)) (codes "f") }
    ensures history_after { Ask (parted (codes "history f 9223372036854775807"))
        (Task.OnFile (FileTask.History (Some 9223372036854775807))) (codes "f") }
    ensures past { AskNothing (parted (codes "history f 9223372036854775808")) }
    ensures led { AskNothing (parted (codes "history f 01")) }
    ensures below { AskNothing (parted (codes "history f -1")) }
    // An import, now or at a moment; nothing without a NAME that is an identifier.
    ensures import { (name : Bor Text) → name.now ≡ codes "harbor-2"
        → Ask (parted (codes "import f harbor-2")) (Task.OnFile (FileTask.Import name None)) (codes "f") }
    ensures import_at { (name : Bor Text) → name.now ≡ codes "harbor-2"
        → Ask (parted (codes "import f harbor-2 --at 1700000000"))
        (Task.OnFile (FileTask.Import name (Some 1700000000))) (codes "f") }
    ensures no_ident { AskNothing (parted (codes "import f Harbor")) }
    ensures unnamed { AskNothing (parted (codes "import f")) }
    // Serving; nothing without a port, of a number out of its bounds, or of an option twice or at another word.
    ensures serve { Ask (parted (codes "serve f --port 8080")) (Task.Serve 8080 None) (codes "f") }
    ensures serve_one { Ask (parted (codes "serve f --port 0 --count 1"))
        (Task.Serve 0 (Some 1)) (codes "f") }
    ensures before { Ask (parted (codes "serve --port=80 f")) (Task.Serve 80 None) (codes "f") }
    ensures no_port { AskNothing (parted (codes "serve f")) }
    ensures high { AskNothing (parted (codes "serve f --port 65536")) }
    ensures plus { AskNothing (parted (codes "serve f --port +80")) }
    ensures no_count { AskNothing (parted (codes "serve f --port 80 --count 0")) }
    ensures twice { AskNothing (parted (codes "serve f --port 1 --port 2")) }
    ensures not_its { AskNothing (parted (codes "lines f --port 80")) }
{}
