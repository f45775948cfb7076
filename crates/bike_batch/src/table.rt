//! The records of a table of stations.

ghost use Rattle.std.specs.Prelude.{◌≡◌, ◌≢◌, ◌∷◌, [], Ok, Err, IfOk, OnOk, IfSome, IsNone, IfErr, length, true, false};
ghost use Rattle.csv.specs.Records.{AllText, fields_of};
ghost use Rattle.bike_batch.specs.Rows.{header};
ghost use Rattle.bike_batch.specs.Texts.{texts_of};
ghost use Rattle.bike_batch.specs.StationTables.{IsPlain, Takes, FindsNone, MeetsFault, MeetsHeaderFault, StandsBehind};

use crate::import_fault::ImportFault;
use crate::input::Input;
use bike_desk::DeskFault;
use csv::{ErrorKind, Reader, ReaderBuilder, StringRecord};
use std::alloc::Global;
use std::io::Read;

/// A table's records, of which none was read yet.
pub fn open_table<R: Read>(alloc: Global, reader: R) -> Reader<Input<R>>
    ensures plain { IsPlain result }
    ensures start { StandsBehind (λ input. R.remaining input.reader) (R.remaining reader) [] result }
{
    ReaderBuilder::new()
        .has_headers(false)
        .flexible(true)
        .from_reader(alloc, Input::new(reader))
}

/// Takes the next record of a table; false at its end. A record that isn't UTF-8 is `Unreadable`, with the number
/// given.
pub fn next_record<R: Read>(
    table: &mut Reader<R>,
    row: &mut StringRecord,
    number: u64,
) -> Result<bool, ImportFault>
    requires { IsPlain table.old }
    // A record, or the end of the table.
    ensures plain { OnOk result (IsPlain table.new) }
    ensures text { OnOk result (AllText (fields_of row.new)) }
    ensures takes { result ≡ Ok true → Takes R.remaining table.old table.new (fields_of row.new) }
    ensures none { result ≡ Ok false → FindsNone R.remaining table.old }
    // Or the first fault of the table.
    ensures fault { IfErr result (MeetsFault R.remaining table.old number) }
{
    match table.read_record(row) {
        Ok(found) => Ok(found),
        Err(error) => match error.kind() {
            ErrorKind::Utf8 { .. } => Err(ImportFault::Unreadable(number)),
            ErrorKind::OutOfMemory => Err(ImportFault::Desk(DeskFault::NoMemory)),
            _ => Err(ImportFault::Read),
        },
    }
}

/// The texts of a record with a row's five fields, by the header's names.
#[derive(Clone, Copy)]
pub struct Columns<'a> {
    pub station_id: &'a str,
    pub name: &'a str,
    pub lat: &'a str,
    pub lon: &'a str,
    pub docks: &'a str,
}

/// The record's fields, where there are five.
pub fn columns_of<'a>(row: &'a StringRecord) -> Option<Columns<'a>>
    ensures five { IfSome result (λ columns. fields_of row.now ≡ texts_of columns) }
    ensures other { IsNone result → length (fields_of row.now) ≢ 5 }
{
    if row.len() != 5 {
        return None;
    }
    Some(Columns {
        station_id: row.get(0)?,
        name: row.get(1)?,
        lat: row.get(2)?,
        lon: row.get(3)?,
        docks: row.get(4)?,
    })
}

impl<'a> Columns<'a> {
    /// Whether they are the header's.
    fn are_header(&self) -> bool
        ensures yes { result ≡ true → texts_of self.now ≡ header }
        ensures no { result ≡ false → texts_of self.now ≢ header }
    {
        self.station_id == "station_id"
            && self.name == "name"
            && self.lat == "lat"
            && self.lon == "lon"
            && self.docks == "docks"
    }
}

/// Takes the header of a table.
pub fn take_header<R: Read>(
    table: &mut Reader<R>,
    row: &mut StringRecord,
) -> Result<(), ImportFault>
    requires { IsPlain table.old }
    ensures plain { OnOk result (IsPlain table.new) }
    ensures takes { OnOk result (Takes R.remaining table.old table.new header) }
    ensures fault { IfErr result (MeetsHeaderFault R.remaining table.old) }
{
    match next_record(table, row, 0) {
        Ok(true) => match columns_of(row) {
            Some(columns) if columns.are_header() => Ok(()),
            _ => Err(ImportFault::BadHeader),
        },
        Ok(false) => Err(ImportFault::BadHeader),
        Err(ImportFault::Unreadable(_)) => Err(ImportFault::BadHeader),
        Err(fault) => Err(fault),
    }
}
