//! The version of the schema that a database tells.

ghost use Rattle.std.specs.Prelude.{◌≡◌, pos, [], ◌∷◌};
ghost use Rattle.sqlite_value.specs.declared.value.Value.TheVariants.{Int};
ghost use Rattle.sqlite_value.specs.Order.{column};
ghost use Rattle.bike_book.specs.Tables.{Meta, keys_of};
ghost use Rattle.bike_sql.specs.Calls.{ReadsWhere};
ghost use Rattle.bike_sql.specs.Stands.{rows_of};
ghost use Rattle.bike_sql.specs.View.{row_with};
ghost use Rattle.bike_schema.specs.Columns.{whole_in};
ghost use Rattle.bike_schema.specs.Layouts.{name_of};
ghost use Rattle.bike_recognition.specs.Recognition.{TableStands, is_app, version_of, version_in, meta_version};

use bike_book::columns::meta;
use bike_schema::{APP, StatementFault};
use bike_sql::lookup::first_row;
use sqlite::types::ValueRef;
use sqlite::{Alter, Connection, Row, params};

/// What row 1 of `meta` tells.
#[derive(Clone, Copy, Debug, PartialEq, Eq)]
pub enum MetaVersion {
    /// There is no row 1.
    Missing,
    /// The product's name, and a version of at least 1.
    Version(u64),
    /// Another name, or a version that is no whole number or is below 1.
    NotOurs,
}

/// Row 1 of `meta`.
fn find_meta_row<S: Alter>(conn: &mut Connection<S>) -> Result<Option<Row>, StatementFault>
    ensures { ReadsWhere S.Store (TableStands Meta) conn.old conn.new result
        (λ db row. row_with (keys_of Meta) (Int (pos 1) ∷ []) (rows_of (keys_of Meta) (name_of Meta) db) ≡ row) }
{
    first_row(conn, "SELECT * FROM meta WHERE one = ?1", params![1_i64])
}

/// Whether the column holds the product's name.
fn is_app_at(row: &Row, at: usize) -> bool
    ensures { result ≡ is_app (column row.now at) }
{
    match row.get_ref(at) {
        Ok(ValueRef::Text(text)) => text == APP.as_bytes(),
        _ => false,
    }
}

/// The version that the column holds.
fn version_at(row: &Row, at: usize) -> MetaVersion
    ensures { result ≡ version_of (whole_in (column row.now at)) }
{
    let Ok(ValueRef::Int(whole)) = row.get_ref(at) else {
        return MetaVersion::NotOurs;
    };
    match u64::try_from(whole) {
        Ok(0) | Err(_) => MetaVersion::NotOurs,
        Ok(version) => MetaVersion::Version(version),
    }
}

/// What the row of `meta` tells.
fn version_in(row: &Option<Row>) -> MetaVersion
    ensures { result ≡ version_in row.now }
{
    match row {
        Some(row) => {
            if is_app_at(row, meta::APP) {
                version_at(row, meta::VERSION)
            } else {
                MetaVersion::NotOurs
            }
        }
        None => MetaVersion::Missing,
    }
}

/// What row 1 of `meta` tells, in a database in which `meta` stands. `NoMemory` and `StoreFailed` where the
/// database wanted memory or failed.
pub fn find_version<S: Alter>(conn: &mut Connection<S>) -> Result<MetaVersion, StatementFault>
    ensures { ReadsWhere S.Store (TableStands Meta) conn.old conn.new result (λ db version. version ≡ meta_version db) }
{
    let row = find_meta_row(conn)?;
    let version = version_in(&row);
    // The version is a number, so the row isn't wanted any more.
    drop(row);
    Ok(version)
}
