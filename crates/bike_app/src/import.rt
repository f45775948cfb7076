//! An import of stations into a database.

ghost use Rattle.std.specs.Prelude.{◌≡◌, ◌≤◌, false, true};
ghost use Rattle.sqlite.specs.State.{HasCleanDisk};
ghost use Rattle.sqlite.specs.Held.{state};
ghost use Rattle.sqlite_trees.specs.View.{doubt};
ghost use Rattle.bike_fields.specs.Bytes.{is_ident};
ghost use Rattle.bike_desk.specs.Desk.{desk_state, OfOperator};
ghost use Rattle.bike_batch.specs.Imports.{Imports};
ghost use Rattle.bike_app.specs.Program.{CrashLeaves, StandsAfterSome};
ghost use Rattle.bike_app.specs.Imports.{PutsRows, TellsImport, TellsImported, TellsRows};

use bike_audit::adopt;
use bike_batch::{ImportFault, import_stations};
use bike_console::{Fault, put, put_number};
use bike_desk::{Desk, DeskFault};
use bike_fields::Ident;
use bike_fixed::Moment;
use sqlite::{Alter, Connection};
use std::alloc::Global;
use std::io::{Read, Write};

/// Writes the line that tells a number of rows, and says whether it is written.
fn put_rows<W: Write>(writer: &mut W, count: u64) -> bool
    ensures { PutsRows count (W.contents writer.old) (W.contents writer.new) result }
{
    let going = put(writer, true, b"rows ");
    let going = put_number(writer, going, count);
    put(writer, going, b"\n")
}

/// Tells an import by the number of its rows, or by its fault; `WriteFailed` where the line can't be written.
fn tell_rows<W: Write>(imported: Result<u64, ImportFault>, writer: &mut W) -> Result<u64, Fault>
    ensures { TellsRows imported (W.contents writer.old) (W.contents writer.new) result }
{
    match imported {
        Ok(count) => {
            if put_rows(writer, count) {
                Ok(count)
            } else {
                Err(Fault::WriteFailed)
            }
        }
        Err(fault) => Err(Fault::of_import(fault)),
    }
}

/// Imports the input into a desk under this name; a want of memory for that is told as the desk's.
fn import_named<S: Alter, R: Read>(
    alloc: Global,
    desk: &mut Desk<S>,
    name: &str,
    moment: Moment,
    reader: &mut R,
) -> Result<u64, ImportFault>
    requires { is_ident name.now ≡ true }
    ensures clean { doubt (desk_state S.Store desk.old).is_clean ≤ doubt (desk_state S.Store desk.new).is_clean }
    ensures imports { OfOperator S.Store desk.old desk.new (λ s.
        Imports S.Store desk.new s moment name.now (R.remaining reader.old) result) }
{
    let Ok(name) = Ident::of(alloc, name) else {
        return Err(ImportFault::Desk(DeskFault::NoMemory));
    };
    import_stations(alloc, desk, moment, &name, reader)
}

/// Imports the input into a desk and tells that; `NoClock` where the clock gave no moment.
fn import_at<S: Alter, R: Read, W: Write>(
    alloc: Global,
    desk: &mut Desk<S>,
    name: &str,
    moment: Option<Moment>,
    reader: &mut R,
    writer: &mut W,
) -> Result<u64, Fault>
    requires { is_ident name.now ≡ true }
    ensures clean { doubt (desk_state S.Store desk.old).is_clean ≤ doubt (desk_state S.Store desk.new).is_clean }
    ensures told { OfOperator S.Store desk.old desk.new (λ s.
        TellsImport S.Store (R.remaining reader.old) (R.remaining reader.new)
        (W.contents writer.old) (W.contents writer.new) name.now moment desk.new s result) }
{
    match moment {
        Some(moment) => {
            let imported = import_named(alloc, desk, name, moment, reader);
            tell_rows(imported, writer)
        }
        None => Err(Fault::NoClock),
    }
}

/// Takes the connection, which is outside a transaction, into service and imports the stations of the input, a CSV
/// table, as the caller `import:NAME`. Where all its rows are accepted the line `rows N` tells their number, and at a
/// fault there is no line. Gives the connection back with the number of rows, or with the fault at which that ended:
/// `BadHeader`, `RowUnreadable` and `RowRefused` come for the table, whose rows before that stay, `ReadFailed` where
/// the input fails or is too long, and `NoClock` where the clock gave no moment.
pub fn import_from<S: Alter, R: Read, W: Write>(
    alloc: Global,
    name: &str,
    moment: Option<Moment>,
    conn: Connection<S>,
    reader: &mut R,
    writer: &mut W,
) -> (Connection<S>, Result<u64, Fault>)
    requires outside { conn.in_transaction ≡ false }
    requires named { is_ident name.now ≡ true }
    ensures clean { doubt (state S.Store conn).is_clean ≤ doubt (state S.Store result.0).is_clean }
    ensures told { HasCleanDisk (state S.Store result.0)
        → TellsImported S.Store (R.remaining reader.old) (R.remaining reader.new)
        (W.contents writer.old) (W.contents writer.new) name.now conn result.0 moment result.1 }
    ensures kept { CrashLeaves S.Store conn result.0 StandsAfterSome }
{
    match adopt(alloc, conn) {
        Ok(mut desk) => {
            let end = import_at(alloc, &mut desk, name, moment, reader, writer);
            (desk.close(), end)
        }
        Err(fault) => Fault::refused(fault),
    }
}
