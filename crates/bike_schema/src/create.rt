//! The statements that make the tables.

ghost use Rattle.std.specs.Prelude.{◌≡◌, map};
ghost use Rattle.sqlite.specs.State.{Survives};
ghost use Rattle.sqlite.specs.Held.{state};
ghost use Rattle.bike_schema.specs.Calls.{Writes};
ghost use Rattle.bike_schema.specs.Creates.{RunsAll, LeavesCommit, TellsFault, MakesTables, table_texts, index_texts};
ghost use Rattle.bike_schema.specs.Creates.{first_write};

use crate::fault::StatementFault;
use crate::indexes;
use bike_book::{NEWEST, table};
use bike_sql::write::run;
use sqlite::{Alter, Transaction, params};

/// The open transaction. What it has changed so far is the relation that the caller keeps; it is spent by
/// its commit, and undone where it is let go.
pub type OpenTransaction<'conn, S> = Transaction<'conn, S>;

/// The name by which the product knows its file.
pub const APP: &str = "bikeshare";

/// The statements that make the tables, in the order of the schema.
pub const TABLES: [&str; 17] = [
    table!(create meta),
    table!(create system),
    table!(create plans),
    table!(create segments),
    table!(create types),
    table!(create regions),
    table!(create stations),
    table!(create docks),
    table!(create bikes),
    table!(create trucks),
    table!(create riders),
    table!(create rentals),
    table!(create orders),
    table!(create entries),
    table!(create history),
    table!(create more_names),
    table!(create books),
];

/// The statements that make the indexes beside those of the keys.
pub const INDEXES: [&str; 6] = [
    indexes::BIKES_BY_DOCK,
    indexes::BIKES_BY_TRUCK,
    indexes::RENTALS_BY_RIDER,
    indexes::MORE_NAMES_BY_LANGUAGE,
    indexes::MORE_NAMES_BY_THING,
    indexes::HISTORY_BY_KEY,
];

/// Runs the statements one after another, with no parameters, up to the first that fails.
fn run_all<S: Alter>(
    staged: &mut OpenTransaction<'_, S>,
    texts: &[&str],
) -> Result<(), StatementFault>
    ensures same_reference { staged.new.conn.ghost_name ≡ staged.old.conn.ghost_name }
    ensures ran { RunsAll S.Store (map (λ text. text.now) texts.now) staged.old.conn.now staged.new.conn.now result }
    ensures refused { LeavesCommit S.Store staged.old.conn.now staged.new.conn.now result }
    ensures told { TellsFault S.Store staged.old.conn.now staged.new.conn.now result }
    ensures survives { Survives (state S.Store staged.old.conn.now) (state S.Store staged.new.conn.now) (λ _. ⊥) }
{
    for sql in texts {
        staged.execute(sql, &[])?;
    }
    Ok(())
}

/// The statements that make the tables, in the order of the schema.
fn table_texts() -> &'static [&'static str]
    ensures { map (λ text. text.now) result.now ≡ table_texts }
{
    &TABLES
}

/// The statements that make the indexes beside those of the keys.
fn index_texts() -> &'static [&'static str]
    ensures { map (λ text. text.now) result.now ≡ index_texts }
{
    &INDEXES
}

/// Adds the one row of `meta`, with all figures 0.
fn add_meta<S: Alter>(staged: &mut OpenTransaction<'_, S>) -> Result<(), StatementFault>
    ensures { Writes S.Store staged.old.conn staged.new.conn result first_write }
{
    run(
        staged,
        table!(insert meta),
        params![1_i64, APP, NEWEST, 0_i64, 0_i64, 0_i64],
    )
}

/// Makes the empty tables, the indexes beside those of the keys, and the one row of `meta`, in a database that has
/// none of them (`has_none`). It fails where there is no room for them (`has_room`). After an error some may stand in
/// the transaction: let it go, and the tables are as before it.
pub fn create_tables<S: Alter>(staged: &mut OpenTransaction<'_, S>) -> Result<(), StatementFault>
    ensures same_reference { staged.new.conn.ghost_name ≡ staged.old.conn.ghost_name }
    ensures creates { MakesTables S.Store staged.old.conn.now staged.new.conn.now result }
    ensures refused { LeavesCommit S.Store staged.old.conn.now staged.new.conn.now result }
    ensures told { TellsFault S.Store staged.old.conn.now staged.new.conn.now result }
    ensures survives { Survives (state S.Store staged.old.conn.now) (state S.Store staged.new.conn.now) (λ _. ⊥) }
{
    run_all(staged, table_texts())?;
    run_all(staged, index_texts())?;
    add_meta(staged)
}
