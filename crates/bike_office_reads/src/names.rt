//! Names in further languages, and the system's own language.

ghost use Rattle.std.specs.Prelude.{◌≡◌, ◌≤◌, IfOk, filter, length, map, option_map};
ghost use Rattle.std.specs.List.{AllZip};
ghost use Rattle.std.specs.Borrow.{sem};
ghost use Rattle.sqlite_value.specs.declared.value.Value.TheVariants.{Text};
ghost use Rattle.sqlite_value.specs.Order.{column};
ghost use Rattle.bike_sql.specs.Calls.{LendsWhere, WalksWhere};
ghost use Rattle.bike_schema.specs.Tables.{IsOurs, tables_of};
ghost use Rattle.bike_operator.specs.declared.limits.TheConstants.{MOST_FURTHER_NAMES};
ghost use Rattle.bike_operator.specs.Names.{further_names};
ghost use Rattle.bike_book.specs.Tables.{MoreNames};
ghost use Rattle.bike_book.specs.Rows.{system_row};
ghost use Rattle.bike_book.specs.Found.{rows_of};
ghost use Rattle.bike_schema.specs.Answers.{Answers};
ghost use Rattle.bike_office_reads.specs.Accounts.{system_key};
ghost use Rattle.bike_office_reads.specs.ReadRows.{IsOwnedName, is_name_within, owned_name};

use crate::collect::{ReadRow, collect_rows, short_text_at};
use crate::plans::find_system_row;
use arrayvec::ArrayString;
use bike_book::columns::system;
use bike_catalogue::MoreName;
use bike_fields::{Ident, LONGEST_IDENT, LONGEST_LANGUAGE, LONGEST_NAME, Language, Name, NameKind};
use bike_operator::MOST_FURTHER_NAMES;
use bike_schema::{StatementFault, ident_at, language_at};
use sqlite::{Alter, Connection, Error, Row, Rows, params};
use std::alloc::Global;
use std::marker::Model;

/// Where a line of a kind's names has the identifier of what has the name.
const ID: usize = 0;

/// Where it has the language.
const LANGUAGE: usize = 1;

/// Where it has the name.
const NAME: usize = 2;

/// How many columns such a line has.
const COLUMNS: usize = 3;

/// A further name as it is stored, with the identifier of what has it.
#[derive(Drop)]
pub struct NameRow {
    id: ArrayString<LONGEST_IDENT>,
    language: ArrayString<LONGEST_LANGUAGE>,
    name: ArrayString<LONGEST_NAME>,
}

impl Model for NameRow {
    ghost use Rattle.std.specs.Prelude.{List, [], ◌∷◌};
    ghost use Rattle.std.specs.Coded.{coded_list};
    ghost use Rattle.sqlite_value.specs.declared.value.Value.{Value as SqlValue};
    ghost use Rattle.sqlite_value.specs.declared.value.Value.TheVariants.{Text};
    ghost use Rattle.sqlite_value.specs.contracts.value.Value.{the_row};

    ghost Value = { List SqlValue };

    ghost coded = { coded_list the_row.coded };

    ghost view = { λ r. Text r.id.bytes ∷ Text r.language.bytes ∷ Text r.name.bytes ∷ [] };
}

impl NameRow {
    /// The identifier of what has the name.
    pub fn id(&self) -> &str
        ensures { column self.now 0 ≡ Text result.now }
    {
        self.id.as_str()
    }
}

impl ReadRow for NameRow {
    ghost reads = { λ row x. row ≡ x };

    fn read(_alloc: Global, row: &Row) -> Result<NameRow, StatementFault> {
        if row.column_count() != COLUMNS {
            return Err(StatementFault::StoreFailed);
        }
        let id = short_text_at(row, ID)?;
        let language = short_text_at(row, LANGUAGE)?;
        let name = short_text_at(row, NAME)?;
        Ok(NameRow { id, language, name })
    }
}

/// Begins to read the further names of a kind, those of the identifiers from one up to another.
fn begin_names<'a, S: Alter>(
    conn: &'a mut Connection<S>,
    kind: NameKind,
    first: &str,
    last: &str,
) -> Result<Rows<'a, S>, Error>
    ensures* lends { sem 𝓛 (LendsWhere S.row S.Store IsOurs conn.entry result) }
    ensures walks { WalksWhere S.Store IsOurs conn.entry result
        (λ db. map owned_name (filter (is_name_within kind first.now last.now) (tables_of db).more_names)) }
{
    conn.query(
        "SELECT id, language, name FROM more_names WHERE kind = ?1 AND id >= ?2 AND id <= ?3 \
         ORDER BY kind, id, language",
        params![kind.as_str(), first, last],
    )
}

/// The rows of the further names of a kind, those of the identifiers from one up to another: each with its identifier
/// before it, in byte order of identifiers and languages.
pub fn select_names<S: Alter>(
    alloc: Global,
    conn: &mut Connection<S>,
    kind: NameKind,
    first: &str,
    last: &str,
) -> Result<Vec<NameRow>, StatementFault>
    ensures { Answers S.Store conn.old conn.new result
        (λ s m rows. rows.items
        ≡ map owned_name (filter (is_name_within kind first.now last.now) (rows_of s m MoreNames))) }
{
    let mut rows = begin_names(conn, kind, first, last)?;
    collect_rows(alloc, &mut rows)
}

/// The further name in its row.
fn read_name(alloc: Global, row: &NameRow) -> Result<MoreName, StatementFault>
    ensures { IfOk result (IsOwnedName row.now) }
{
    let language = Language::read(alloc, row.language.as_str())?;
    let language = language.ok_or(StatementFault::StoreFailed)?;
    let name = Name::read(alloc, row.name.as_str())?;
    let name = name.ok_or(StatementFault::StoreFailed)?;
    Ok(MoreName::from_fields(language, name))
}

/// The names that stand in these rows, which are one thing's. `StoreFailed` where they are more than a thing may have.
pub fn read_names(alloc: Global, rows: &[NameRow]) -> Result<Vec<MoreName>, StatementFault>
    ensures read { IfOk result (λ x. AllZip IsOwnedName rows.now x.items) }
    ensures few { IfOk result (λ x. length x.items ≤ MOST_FURTHER_NAMES) }
{
    if rows.len() > MOST_FURTHER_NAMES as usize {
        return Err(StatementFault::StoreFailed);
    }
    let mut names = Vec::new(alloc);
    for row in rows {
        let name = read_name(alloc, row)?;
        if names.push(name).is_err() {
            return Err(StatementFault::NoMemory);
        }
    }
    Ok(names)
}

/// The further names of what has this kind and identifier, in byte order of their languages. `NoMemory` where they find
/// no room; every other fault is the database's.
pub fn find_names<S: Alter>(
    alloc: Global,
    conn: &mut Connection<S>,
    kind: NameKind,
    id: &Ident,
) -> Result<Vec<MoreName>, StatementFault>
    ensures { Answers S.Store conn.old conn.new result (λ s m x. x.items ≡ further_names s kind id.now) }
{
    let rows = select_names(alloc, conn, kind, id.as_str(), id.as_str())?;
    read_names(alloc, rows.as_slice())
}

/// The identifier and the language that stand in the row of `system`.
fn read_system_key(alloc: Global, row: &Row) -> Result<(Ident, Language), StatementFault>
    ensures { IfOk result (λ x. (r : _) → row.now ≡ system_row r → x ≡ system_key r) }
{
    let system_id = ident_at(alloc, row, system::SYSTEM_ID)?;
    let language = language_at(alloc, row, system::LANGUAGE)?;
    Ok((system_id, language))
}

/// The system's identifier and its language, if the system is set. `NoMemory` where they find no room; every other
/// fault is the database's.
pub fn find_system_key<S: Alter>(
    alloc: Global,
    conn: &mut Connection<S>,
) -> Result<Option<(Ident, Language)>, StatementFault>
    ensures { Answers S.Store conn.old conn.new result (λ s m x. x ≡ option_map system_key s.system) }
{
    match find_system_row(conn)? {
        Some(row) => Ok(Some(read_system_key(alloc, &row)?)),
        None => Ok(None),
    }
}
