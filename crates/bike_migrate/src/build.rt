//! The newest tables, made and filled inside the connection's transaction.

ghost use Rattle.std.specs.Prelude.{[], ◌∷◌};
ghost use Rattle.bike_book.specs.Tables.{Regions, Stations, Riders, History, MoreNames, Books};
ghost use Rattle.bike_schema.specs.Layouts.{name_of};
ghost use Rattle.sqlite_resolve.specs.Compile.{first};
ghost use Rattle.bike_sql.specs.Drops.{IsDrop};
ghost use Rattle.bike_recognition.specs.EarlierVersions.Earlier.{newest_names, newer_names, stations_name, IsAt};
ghost use Rattle.bike_recognition.specs.declared.earlier_versions.earlier.Earlier.TheVariants.{Second};
ghost use Rattle.bike_recognition.specs.Recognition.{TableStands};
ghost use Rattle.sqlite.specs.Effect.{IsDatabase};
ghost use Rattle.bike_migrate.specs.Calls.{ChangesInside};
ghost use Rattle.bike_schema.specs.Indexes.{more_names_by_language, more_names_by_thing, history_by_key};
ghost use Rattle.bike_recognition.specs.EarlierVersions.Counts.{HasCounts, counts_name};
ghost use Rattle.bike_recognition.specs.EarlierVersions.Riders.{HasRiders, riders_name};
ghost use Rattle.bike_recognition.specs.EarlierVersions.Kept.{KeptLies, kept_name};
ghost use Rattle.bike_migrate.specs.Raised.{IsUnnamed, AreUnnamed, HasOldRows, HasOld, HasOldTables};
ghost use Rattle.bike_migrate.specs.Raised.{MakesTable, MakesIndex, MakesIndexes, MakesNames, MakesHistory};
ghost use Rattle.bike_migrate.specs.Raised.{MakesRiders, MakesStations, MakesLater, MakesMore, MakesTables, Fills};
ghost use Rattle.bike_migrate.specs.Raised.{DropsTable, DropsOld};

use crate::copy::fill;
use crate::inside::run;
use bike_book::table;
use bike_recognition::Earlier;
use bike_schema::{StatementFault, indexes};
use sqlite::{Alter, Connection, Row};
use std::alloc::Global;

/// Makes the table of regions.
fn create_regions<S: Alter>(conn: &mut Connection<S>) -> Result<(), StatementFault>
    ensures { ChangesInside S.Store (IsUnnamed Regions) conn.old conn.new result (MakesTable Regions) }
{
    run(conn, table!(create regions), &[])
}

/// Makes the table of stations.
fn create_stations<S: Alter>(conn: &mut Connection<S>) -> Result<(), StatementFault>
    ensures { ChangesInside S.Store (IsUnnamed Stations) conn.old conn.new result (MakesTable Stations) }
{
    run(conn, table!(create stations), &[])
}

/// Makes the table of riders.
fn create_riders<S: Alter>(conn: &mut Connection<S>) -> Result<(), StatementFault>
    ensures { ChangesInside S.Store (IsUnnamed Riders) conn.old conn.new result (MakesTable Riders) }
{
    run(conn, table!(create riders), &[])
}

/// Makes the table of what was archived.
fn create_books<S: Alter>(conn: &mut Connection<S>) -> Result<(), StatementFault>
    ensures { ChangesInside S.Store (IsUnnamed Books) conn.old conn.new result (MakesTable Books) }
{
    run(conn, table!(create books), &[])
}

/// Makes the table of further names.
fn create_names<S: Alter>(conn: &mut Connection<S>) -> Result<(), StatementFault>
    ensures { ChangesInside S.Store (IsUnnamed MoreNames) conn.old conn.new result (MakesTable MoreNames) }
{
    run(conn, table!(create more_names), &[])
}

/// Makes the index of further names by their languages.
fn index_by_language<S: Alter>(conn: &mut Connection<S>) -> Result<(), StatementFault>
    ensures { ChangesInside S.Store (TableStands MoreNames) conn.old conn.new result
        (MakesIndex more_names_by_language) }
{
    run(conn, indexes::MORE_NAMES_BY_LANGUAGE, &[])
}

/// Makes the index of further names by what they name.
fn index_by_thing<S: Alter>(conn: &mut Connection<S>) -> Result<(), StatementFault>
    ensures { ChangesInside S.Store (TableStands MoreNames) conn.old conn.new result
        (MakesIndex more_names_by_thing) }
{
    run(conn, indexes::MORE_NAMES_BY_THING, &[])
}

/// Makes the indexes of further names.
fn create_indexes<S: Alter>(conn: &mut Connection<S>) -> Result<(), StatementFault>
    ensures { ChangesInside S.Store (TableStands MoreNames) conn.old conn.new result MakesIndexes }
{
    index_by_language(conn)?;
    index_by_thing(conn)
}

/// Makes the table of the history.
fn create_history<S: Alter>(conn: &mut Connection<S>) -> Result<(), StatementFault>
    ensures { ChangesInside S.Store (IsUnnamed History) conn.old conn.new result (MakesTable History) }
{
    run(conn, table!(create history), &[])
}

/// Makes the index of the history by callers and keys.
fn index_by_key<S: Alter>(conn: &mut Connection<S>) -> Result<(), StatementFault>
    ensures { ChangesInside S.Store (TableStands History) conn.old conn.new result (MakesIndex history_by_key) }
{
    run(conn, indexes::HISTORY_BY_KEY, &[])
}

/// Makes the table of the history, with its index.
fn make_history<S: Alter>(conn: &mut Connection<S>) -> Result<(), StatementFault>
    ensures { ChangesInside S.Store (IsUnnamed History) conn.old conn.new result MakesHistory }
{
    create_history(conn)?;
    index_by_key(conn)
}

/// Makes the table of further names, with its indexes.
fn make_names<S: Alter>(conn: &mut Connection<S>) -> Result<(), StatementFault>
    ensures { ChangesInside S.Store (IsUnnamed MoreNames) conn.old conn.new result MakesNames }
{
    create_names(conn)?;
    create_indexes(conn)
}

/// Makes the tables of riders and of what was archived.
fn make_riders<S: Alter>(conn: &mut Connection<S>) -> Result<(), StatementFault>
    ensures { ChangesInside S.Store (AreUnnamed (name_of Riders ∷ name_of Books ∷ [])) conn.old conn.new result
        MakesRiders }
{
    create_riders(conn)?;
    create_books(conn)
}

/// Makes them, and before them the table of stations.
fn make_stations<S: Alter>(conn: &mut Connection<S>) -> Result<(), StatementFault>
    ensures { ChangesInside S.Store (AreUnnamed (name_of Stations ∷ name_of Riders ∷ name_of Books ∷ []))
        conn.old conn.new result MakesStations }
{
    create_stations(conn)?;
    make_riders(conn)
}

/// Makes what every earlier version lacks.
fn make_later<S: Alter>(conn: &mut Connection<S>) -> Result<(), StatementFault>
    ensures { ChangesInside S.Store (AreUnnamed newest_names) conn.old conn.new result MakesLater }
{
    make_history(conn)?;
    make_stations(conn)
}

/// Makes what the first two versions lack.
fn make_more<S: Alter>(conn: &mut Connection<S>) -> Result<(), StatementFault>
    ensures { ChangesInside S.Store (AreUnnamed (newer_names Second)) conn.old conn.new result MakesMore }
{
    make_names(conn)?;
    make_later(conn)
}

/// Makes the tables that the version lacks.
fn make_tables<S: Alter>(conn: &mut Connection<S>, earlier: Earlier) -> Result<(), StatementFault>
    ensures { ChangesInside S.Store (IsAt earlier) conn.old conn.new result (MakesTables earlier) }
{
    match earlier {
        Earlier::First => {
            create_regions(conn)?;
            make_more(conn)
        }
        Earlier::Second => make_more(conn),
        Earlier::Third => make_later(conn),
    }
}

/// Makes the newest tables and fills them: these are the rows of the old tables, which stay.
pub(crate) fn build<S: Alter>(
    alloc: Global,
    conn: &mut Connection<S>,
    earlier: Earlier,
    stations: &[Row],
    riders: &[Row],
    kept: &[Row],
) -> Result<(), StatementFault>
    ensures { ChangesInside S.Store (HasOldRows earlier stations.now riders.now kept.now) conn.old conn.new result
        (Fills earlier) }
{
    make_tables(conn, earlier)?;
    fill(alloc, conn, stations, riders, kept)
}

/// The statement that drops its table of stations.
fn drop_text(earlier: Earlier) -> &'static str
    ensures { IsDrop (first result.now) (stations_name earlier) }
{
    match earlier {
        Earlier::First => "DROP TABLE stations",
        Earlier::Second => "DROP TABLE stations_2",
        Earlier::Third => "DROP TABLE stations_3",
    }
}

/// Drops its table of stations.
fn drop_stations<S: Alter>(conn: &mut Connection<S>, earlier: Earlier) -> Result<(), StatementFault>
    ensures { ChangesInside S.Store (λ db. IsDatabase db × HasOld earlier db) conn.old conn.new result
        (DropsTable (stations_name earlier)) }
{
    run(conn, drop_text(earlier), &[])
}

/// Drops the old `riders`.
fn drop_riders<S: Alter>(conn: &mut Connection<S>) -> Result<(), StatementFault>
    ensures { ChangesInside S.Store (λ db. IsDatabase db × HasRiders db) conn.old conn.new result
        (DropsTable riders_name) }
{
    run(conn, "DROP TABLE riders", &[])
}

/// Drops `counts`.
fn drop_counts<S: Alter>(conn: &mut Connection<S>) -> Result<(), StatementFault>
    ensures { ChangesInside S.Store (λ db. IsDatabase db × HasCounts db) conn.old conn.new result
        (DropsTable counts_name) }
{
    run(conn, "DROP TABLE counts", &[])
}

/// Drops `kept`.
fn drop_kept<S: Alter>(conn: &mut Connection<S>) -> Result<(), StatementFault>
    ensures { ChangesInside S.Store (λ db. IsDatabase db × KeptLies db) conn.old conn.new result
        (DropsTable kept_name) }
{
    run(conn, "DROP TABLE kept", &[])
}

/// Drops the old tables.
pub(crate) fn drop_old<S: Alter>(
    conn: &mut Connection<S>,
    earlier: Earlier,
) -> Result<(), StatementFault>
    ensures { ChangesInside S.Store (λ db. IsDatabase db × HasOldTables earlier db) conn.old conn.new result
        (DropsOld earlier) }
{
    drop_kept(conn)?;
    drop_counts(conn)?;
    drop_riders(conn)?;
    drop_stations(conn, earlier)
}
