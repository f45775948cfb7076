//! Which version of the schema a database is of.

ghost use Rattle.std.specs.Prelude.{◌≡◌};
ghost use Rattle.bike_sql.specs.Calls.{ReadsWhere};
ghost use Rattle.bike_book.specs.Tables.{Meta};
ghost use Rattle.bike_recognition.specs.Recognition.{ReadsAny, TableStands, meta_version};
ghost use Rattle.bike_recognition.specs.declared.version.MetaVersion.TheVariants.{Version};
ghost use Rattle.bike_recognition.specs.EarlierVersions.Found.{earlier_of, IsNewest, IsOfEarlier};
ghost use Rattle.bike_recognition.specs.EarlierVersions.Found.{IsByVersion, IsByMeta, IsFoundAs};

use crate::earlier_versions::earlier::Earlier;
use crate::earlier_versions::stands::is_at;
use crate::{
    MetaVersion, Recognition, TableName, check_open, find_version, recognise_tables, table_stands,
};
use bike_book::NEWEST;
use bike_schema::{StatementFault, has_none};
use sqlite::{Alter, Connection};
use std::alloc::Global;
use std::cmp::Ordering;

/// What a database is.
#[derive(Clone, Copy, Debug, PartialEq, Eq)]
pub enum Found {
    /// It has no table of the product's names.
    Empty,
    /// It is of the newest version: all tables stand.
    Newest,
    /// It is of this earlier version: its tables stand, and the names of later ones are free.
    Of(Earlier),
    /// It is of this later version.
    Newer(u64),
    /// It has some of the names, and isn't the product's.
    Foreign,
}

/// The earlier version of this number.
fn earlier_of(version: u64) -> Option<Earlier>
    ensures { result ≡ earlier_of version }
{
    match version {
        1 => Some(Earlier::First),
        2 => Some(Earlier::Second),
        3 => Some(Earlier::Third),
        _ => None,
    }
}

/// What a database of the newest version is.
fn find_newest<S: Alter>(alloc: Global, conn: &mut Connection<S>) -> Result<Found, StatementFault>
    ensures { ReadsAny S.Store conn.old conn.new result IsNewest }
{
    match recognise_tables(alloc, conn)? {
        Recognition::Ours => Ok(Found::Newest),
        _ => Ok(Found::Foreign),
    }
}

/// What a database is whose `meta` tells an earlier version.
fn find_earlier<S: Alter>(
    alloc: Global,
    conn: &mut Connection<S>,
    version: Option<Earlier>,
) -> Result<Found, StatementFault>
    ensures { ReadsAny S.Store conn.old conn.new result (λ db found. IsOfEarlier db version found) }
{
    let Some(earlier) = version else {
        check_open(conn)?;
        return Ok(Found::Foreign);
    };
    if is_at(alloc, conn, earlier)? {
        Ok(Found::Of(earlier))
    } else {
        Ok(Found::Foreign)
    }
}

/// What a database is whose `meta` tells this version.
fn find_by_version<S: Alter>(
    alloc: Global,
    conn: &mut Connection<S>,
    version: u64,
) -> Result<Found, StatementFault>
    ensures { ReadsAny S.Store conn.old conn.new result (λ db found. IsByVersion db (Version version) found) }
{
    match version.cmp(&u64::from(NEWEST)) {
        Ordering::Less => find_earlier(alloc, conn, earlier_of(version)),
        Ordering::Equal => find_newest(alloc, conn),
        Ordering::Greater => {
            check_open(conn)?;
            Ok(Found::Newer(version))
        }
    }
}

/// What a database is whose row 1 of `meta` tells this.
fn find_by_row<S: Alter>(
    alloc: Global,
    conn: &mut Connection<S>,
    told: MetaVersion,
) -> Result<Found, StatementFault>
    ensures { ReadsAny S.Store conn.old conn.new result (λ db found. IsByVersion db told found) }
{
    match told {
        MetaVersion::Missing => find_newest(alloc, conn),
        MetaVersion::Version(version) => find_by_version(alloc, conn, version),
        MetaVersion::NotOurs => {
            check_open(conn)?;
            Ok(Found::Foreign)
        }
    }
}

/// What a database is in which `meta` stands.
fn find_by_meta_row<S: Alter>(
    alloc: Global,
    conn: &mut Connection<S>,
) -> Result<Found, StatementFault>
    ensures { ReadsWhere S.Store (TableStands Meta) conn.old conn.new result
        (λ db found. IsByVersion db (meta_version db) found) }
{
    let told = find_version(conn)?;
    find_by_row(alloc, conn, told)
}

/// What a database is that has some of the product's names.
fn find_by_meta<S: Alter>(alloc: Global, conn: &mut Connection<S>) -> Result<Found, StatementFault>
    ensures { ReadsAny S.Store conn.old conn.new result IsByMeta }
{
    if table_stands(alloc, conn, TableName::Meta)? {
        find_by_meta_row(alloc, conn)
    } else {
        Ok(Found::Foreign)
    }
}

/// Which version of the schema the database is of. It stays as it is. `StoreFailed` where the store fails or was shut,
/// `NoMemory` where memory is refused.
pub fn find_version_of<S: Alter>(
    alloc: Global,
    conn: &mut Connection<S>,
) -> Result<Found, StatementFault>
    ensures { ReadsAny S.Store conn.old conn.new result IsFoundAs }
{
    if has_none(conn) {
        check_open(conn)?;
        return Ok(Found::Empty);
    }
    find_by_meta(alloc, conn)
}
