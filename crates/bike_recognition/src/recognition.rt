//! What a database is to the product.

ghost use Rattle.std.specs.Prelude.{◌≡◌};
ghost use Rattle.bike_book.specs.Tables.{Meta};
ghost use Rattle.bike_sql.specs.Calls.{ReadsWhere};
ghost use Rattle.bike_recognition.specs.Recognition.{ReadsAny, TableStands, told_by, IsByTables, IsByVersion, IsByMeta};
ghost use Rattle.bike_recognition.specs.Recognition.{IsRecognised};

use crate::stands::{check_open, missing_table, table_stands};
use crate::table::TableName;
use crate::version::{MetaVersion, find_version};
use bike_book::NEWEST;
use bike_schema::{StatementFault, has_none};
use sqlite::{Alter, Connection};
use std::alloc::Global;
use std::cmp::Ordering;

/// What a database is to the product.
#[derive(Clone, Copy, Debug, PartialEq, Eq)]
pub enum Recognition {
    /// It has no table of the product's names.
    Empty,
    /// It has some of the names, and isn't the product's.
    Foreign,
    /// It is of this earlier version of the schema.
    Older(u64),
    /// It is of this later version of the schema.
    Newer(u64),
    /// All tables stand, in the newest version.
    Ours,
}

/// What a database of the newest version is: `Ours` or `Foreign`. It stays as it is. It fails as `recognise` does.
pub fn recognise_tables<S: Alter>(
    alloc: Global,
    conn: &mut Connection<S>,
) -> Result<Recognition, StatementFault>
    ensures { ReadsAny S.Store conn.old conn.new result IsByTables }
{
    match missing_table(alloc, conn)? {
        Some(_) => Ok(Recognition::Foreign),
        None => Ok(Recognition::Ours),
    }
}

/// What row 1 of `meta` tells before the other tables are looked at; `None` where they decide.
fn told_by(version: MetaVersion) -> Option<Recognition>
    ensures { result ≡ told_by version }
{
    match version {
        MetaVersion::Missing => None,
        MetaVersion::NotOurs => Some(Recognition::Foreign),
        MetaVersion::Version(version) => match version.cmp(&u64::from(NEWEST)) {
            Ordering::Less => Some(Recognition::Older(version)),
            Ordering::Equal => None,
            Ordering::Greater => Some(Recognition::Newer(version)),
        },
    }
}

/// What a database is in which `meta` stands.
fn recognise_version<S: Alter>(
    alloc: Global,
    conn: &mut Connection<S>,
) -> Result<Recognition, StatementFault>
    ensures { ReadsWhere S.Store (TableStands Meta) conn.old conn.new result IsByVersion }
{
    let version = find_version(conn)?;
    match told_by(version) {
        Some(told) => Ok(told),
        None => recognise_tables(alloc, conn),
    }
}

/// What a database is that has some of the product's names.
fn recognise_meta<S: Alter>(
    alloc: Global,
    conn: &mut Connection<S>,
) -> Result<Recognition, StatementFault>
    ensures { ReadsAny S.Store conn.old conn.new result IsByMeta }
{
    if table_stands(alloc, conn, TableName::Meta)? {
        recognise_version(alloc, conn)
    } else {
        Ok(Recognition::Foreign)
    }
}

/// What the database is to the product. The version is looked at before the tables other than `meta`. The
/// database stays as it is. `StoreFailed` where the store fails or was shut, `NoMemory` where memory is refused.
pub fn recognise<S: Alter>(
    alloc: Global,
    conn: &mut Connection<S>,
) -> Result<Recognition, StatementFault>
    ensures { ReadsAny S.Store conn.old conn.new result IsRecognised }
{
    if has_none(conn) {
        check_open(conn)?;
        return Ok(Recognition::Empty);
    }
    recognise_meta(alloc, conn)
}
