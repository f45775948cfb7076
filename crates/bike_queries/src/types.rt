//! The vehicle types in byte order of their identifiers, one after another, and their identifiers alone.

ghost use Rattle.std.specs.Prelude.{◌≡◌, IfOk, Some, map, option_map};
ghost use Rattle.std.specs.FinMap.{keys};
ghost use Rattle.sqlite_value.specs.declared.value.Value.TheVariants.{Text};
ghost use Rattle.sqlite_value.specs.Order.{column};
ghost use Rattle.bike_fields.specs.Vehicle.{form_text, propulsion_text};
ghost use Rattle.bike_book.specs.Rows.{type_row};
ghost use Rattle.bike_book.specs.Stored.{stored_type};
ghost use Rattle.bike_schema.specs.Columns.{ident_in};
ghost use Rattle.bike_schema.specs.Answers.{Answers, IsReadOf};
ghost use Rattle.bike_queries.specs.After.{IsNext, first_after};

use crate::after::start_of;
use bike_book::columns::types;
use bike_catalogue::VehicleType;
use bike_fields::{Form, Ident, Propulsion};
use bike_fleet_reads::{find_type_row_from, select_types};
use bike_schema::{StatementFault, ident_at, name_at, number_at, str_at};
use sqlite::{Alter, Connection, Row};
use std::alloc::Global;

/// The row of the first vehicle type whose identifier comes after this one, or of the first of all.
fn select_type<S: Alter>(
    conn: &mut Connection<S>,
    after: Option<&Ident>,
) -> Result<Option<Row>, StatementFault>
    ensures { Answers S.Store conn.old conn.new result
        (λ s m row. row ≡ option_map stored_type (first_after (option_map (λ id. id.now) after.entry) s.types)) }
{
    let start = start_of(after);
    find_type_row_from(conn, start.as_str())
}

/// The form that the column names.
fn form_at(row: &Row, at: usize) -> Result<Form, StatementFault>
    ensures { IfOk result (λ x. (form : _) → column row.now at ≡ Text (form_text form) → x ≡ form) }
{
    let text = str_at(row, at)?;
    Form::read(text).ok_or(StatementFault::StoreFailed)
}

/// The propulsion that the column names.
fn propulsion_at(row: &Row, at: usize) -> Result<Propulsion, StatementFault>
    ensures { IfOk result
        (λ x. (propulsion : _) → column row.now at ≡ Text (propulsion_text propulsion) → x ≡ propulsion) }
{
    let text = str_at(row, at)?;
    Propulsion::read(text).ok_or(StatementFault::StoreFailed)
}

/// The vehicle type that stands in a row of `types`.
fn read_type(alloc: Global, row: &Row) -> Result<VehicleType, StatementFault>
    ensures { IsReadOf (λ t. type_row t.type_id t) row.now result }
{
    let type_id = ident_at(alloc, row, types::TYPE_ID)?;
    let name = name_at(alloc, row, types::NAME)?;
    let form = form_at(row, types::FORM)?;
    let propulsion = propulsion_at(row, types::PROPULSION)?;
    let max_range = number_at(row, types::RANGE_M)?;
    let plan_id = ident_at(alloc, row, types::PLAN_ID)?;
    VehicleType::from_fields(type_id, name, form, propulsion, max_range, plan_id).ok_or(
        StatementFault::StoreFailed,
    )
}

/// The first vehicle type whose identifier comes after this one, or the first of all; `None` where there is none.
/// `NoMemory` where its texts find no room; every other fault is the database's.
pub fn find_type_after<S: Alter>(
    alloc: Global,
    conn: &mut Connection<S>,
    after: Option<&Ident>,
) -> Result<Option<VehicleType>, StatementFault>
    ensures { Answers S.Store conn.old conn.new result
        (λ s m x. IsNext (λ t. t.type_id) (first_after (option_map (λ id. id.now) after.entry) s.types) x) }
{
    match select_type(conn, after)? {
        Some(row) => Ok(Some(read_type(alloc, &row)?)),
        None => Ok(None),
    }
}

/// The identifiers with which the rows begin.
fn read_type_ids(alloc: Global, rows: &[Row]) -> Result<Vec<Ident>, StatementFault>
    ensures { IfOk result (λ x. map Some x.items ≡ map (λ row. ident_in (column row 0)) rows.now) }
{
    let mut type_ids = Vec::new(alloc);
    for row in rows {
        let type_id = ident_at(alloc, row, types::TYPE_ID)?;
        if type_ids.push(type_id).is_err() {
            return Err(StatementFault::NoMemory);
        }
    }
    Ok(type_ids)
}

/// The identifiers of all vehicle types, of which there are at most 32, in byte order. `NoMemory` where they find no
/// room; every other fault is the database's.
pub fn find_type_ids<S: Alter>(
    alloc: Global,
    conn: &mut Connection<S>,
) -> Result<Vec<Ident>, StatementFault>
    ensures { Answers S.Store conn.old conn.new result (λ s m x. x.items ≡ keys s.types) }
{
    let rows = select_types(conn)?;
    read_type_ids(alloc, rows.as_slice())
}
