//! The statements on names: in the own row of what has one, and in `more_names`.

ghost use Rattle.bike_accepted.specs.declared.change.Change.TheVariants as change;
ghost use Rattle.bike_book.specs.Writes.{record_write};
ghost use Rattle.bike_schema.specs.Calls.{Writes};

use bike_book::table;
use bike_fields::{Ident, Language, Name, NameKind};
use bike_schema::{OpenTransaction, StatementFault};
use bike_sql::write::run;
use sqlite::{Alter, params};

/// Sets the name of what has this kind and identifier, or a plan's description. `system` has one row, under a key of
/// its own.
pub(crate) fn set_own_name<S: Alter>(
    tx: &mut OpenTransaction<'_, S>,
    kind: NameKind,
    id: &Ident,
    name: &Name,
) -> Result<(), StatementFault>
    ensures { Writes S.Store tx.old.conn tx.new.conn result
        (record_write (change.SetOwnName kind id.entry name.entry)) }
{
    let (id, name) = (id.as_str(), name.as_str());
    let sql = match kind {
        NameKind::System => {
            let sql = "UPDATE system SET name = ?2 WHERE one = ?1";
            return run(tx, sql, params![1_i64, name]);
        }
        NameKind::Station => "UPDATE stations_4 SET name = ?2 WHERE station_id = ?1",
        NameKind::Type => "UPDATE types SET name = ?2 WHERE type_id = ?1",
        NameKind::Plan => "UPDATE plans SET name = ?2 WHERE plan_id = ?1",
        NameKind::Description => "UPDATE plans SET description = ?2 WHERE plan_id = ?1",
        NameKind::Region => "UPDATE regions SET name = ?2 WHERE region_id = ?1",
    };
    run(tx, sql, params![id, name])
}

/// Adds a name in a further language.
pub(crate) fn add_name<S: Alter>(
    tx: &mut OpenTransaction<'_, S>,
    kind: NameKind,
    id: &Ident,
    language: &Language,
    name: &Name,
) -> Result<(), StatementFault>
    ensures { Writes S.Store tx.old.conn tx.new.conn result
        (record_write (change.AddName kind id.entry language.entry name.entry)) }
{
    run(
        tx,
        table!(insert more_names),
        params![kind.as_str(), id.as_str(), language.as_str(), name.as_str()],
    )
}

/// Sets a name in a further language.
pub(crate) fn set_further_name<S: Alter>(
    tx: &mut OpenTransaction<'_, S>,
    kind: NameKind,
    id: &Ident,
    language: &Language,
    name: &Name,
) -> Result<(), StatementFault>
    ensures { Writes S.Store tx.old.conn tx.new.conn result
        (record_write (change.SetFurtherName kind id.entry language.entry name.entry)) }
{
    run(
        tx,
        "UPDATE more_names SET name = ?4 WHERE kind = ?1 AND id = ?2 AND language = ?3",
        params![kind.as_str(), id.as_str(), language.as_str(), name.as_str()],
    )
}

/// Removes a name in a further language.
pub(crate) fn remove_name<S: Alter>(
    tx: &mut OpenTransaction<'_, S>,
    kind: NameKind,
    id: &Ident,
    language: &Language,
) -> Result<(), StatementFault>
    ensures { Writes S.Store tx.old.conn tx.new.conn result
        (record_write (change.RemoveName kind id.entry language.entry)) }
{
    run(
        tx,
        "DELETE FROM more_names WHERE kind = ?1 AND id = ?2 AND language = ?3",
        params![kind.as_str(), id.as_str(), language.as_str()],
    )
}
