//! The languages of further names in byte order, one after another.

ghost use Rattle.std.specs.Prelude.{◌≡◌, option_map};
ghost use Rattle.bike_schema.specs.Answers.{Answers};
ghost use Rattle.bike_queries.specs.After.{language_row, next_language, start_after};

use arrayvec::ArrayString;
use bike_fields::{LONGEST_LANGUAGE, Language};
use bike_schema::{StatementFault, language_at};
use bike_sql::lookup::first_row;
use sqlite::{Alter, Connection, Row, params};
use std::alloc::Global;

/// Room for a language and the byte behind it.
const START_LENGTH: usize = LONGEST_LANGUAGE + 1;

/// The text from which the walk goes on: the language with a byte 0 behind it, which is the first text after it, or at
/// first the empty text. No name in the language itself comes then, so that the engine has none of these to pass.
fn start_of(after: Option<&Language>) -> ArrayString<START_LENGTH>
    ensures { result.bytes ≡ start_after (option_map (λ l. l.now) after.entry) }
{
    let mut start = ArrayString::new();
    if let Some(language) = after {
        start.push_str(language.as_str());
        start.push('\0');
    }
    start
}

/// The first further language after this one, or the first of all, as a row of its own: however many names are in it.
fn select_language<S: Alter>(
    conn: &mut Connection<S>,
    after: Option<&Language>,
) -> Result<Option<Row>, StatementFault>
    ensures { Answers S.Store conn.old conn.new result
        (λ s m row. row ≡ option_map language_row (next_language (option_map (λ l. l.now) after.entry) s)) }
{
    let start = start_of(after);
    first_row(
        conn,
        "SELECT language FROM more_names WHERE language >= ?1 ORDER BY language LIMIT 1",
        params![start.as_str()],
    )
}

/// The first further language after this one, or the first of all; `None` where there is none. `NoMemory` where it
/// finds no room; every other fault is the database's.
pub fn find_language_after<S: Alter>(
    alloc: Global,
    conn: &mut Connection<S>,
    after: Option<&Language>,
) -> Result<Option<Language>, StatementFault>
    ensures { Answers S.Store conn.old conn.new result
        (λ s m x. x ≡ next_language (option_map (λ l. l.now) after.entry) s) }
{
    match select_language(conn, after)? {
        Some(row) => Ok(Some(language_at(alloc, &row, 0)?)),
        None => Ok(None),
    }
}
