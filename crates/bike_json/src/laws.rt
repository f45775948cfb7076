//! What the calls and the escapes mean.

ghost use Rattle.std.specs.Prelude.{◌≡◌, ℕ, List, [], ◌++◌, Some};
ghost use Rattle.bike_json.specs.Escapes.{string_text};
ghost use Rattle.bike_json.specs.Front.{Calls, BeginsText, IsText};
ghost use Rattle.bike_json.specs.Strings.{read_string};
ghost use Rattle.bike_json.specs.declared.level.Level.{Level as AnyLevel};

use crate::level::Level;

/// After any sequence of calls, each made where the levels take it, what was written begins the text of one
/// value; and where the value is ended, it is that text.
pub fn text_laws(_open: Level)
    ensures begins { (round : List AnyLevel) (top : AnyLevel) (bytes : List ℕ) → Calls round top bytes
        → BeginsText bytes }
    ensures whole { (bytes : List ℕ) → Calls [] Level.Done bytes → IsText bytes }
{}

/// A string is read back as the text that was written: so different texts have different strings, and
/// nothing in a text can end its string.
pub fn string_laws()
    ensures { (text rest : List ℕ) → read_string (string_text text ++ rest) ≡ Some (text, rest) }
{}
