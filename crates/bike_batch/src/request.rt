//! The request that a row is.

ghost use Rattle.std.specs.Prelude.{◌≡◌, true, IfOk, IfSome};
ghost use Rattle.csv.specs.Records.{fields_of};
ghost use Rattle.bike_fields.specs.Bytes.{is_key};
ghost use Rattle.bike_catalogue.specs.Rows.{IsStation};
ghost use Rattle.bike_commands.specs.Requests.{IsRequest};
ghost use Rattle.bike_batch.specs.Rows.{key_of, request_of, station_of};
ghost use Rattle.bike_batch.specs.ImportServing.{MakesRequest};
ghost use Rattle.bike_batch.specs.Texts.{texts_of};

use crate::import_fault::ImportFault;
use crate::table::{Columns, columns_of};
use arrayvec::ArrayString;
use bike_catalogue::Station;
use bike_commands::{Command, Refusal, Request};
use bike_fields::{Caller, DockCount, Ident, Name, RequestKey};
use bike_fixed::Micro;
use csv::StringRecord;
use itoa::Buffer;
use std::alloc::{AllocError, Global};

/// The bytes of the longest key of a row.
const KEY_LENGTH: usize = 24;

/// The station of a row, where every field is good.
#[tactic(auto, unfolding(crate::specs::Rows::station_of))]
fn read_station(alloc: Global, row: &Columns<'_>) -> Result<Option<Station>, AllocError>
    ensures value { IfOk result (λ station. station ≡ station_of (texts_of row.now)) }
    ensures bounds { IfOk result (λ station. IfSome station IsStation) }
{
    let Some(station_id) = Ident::checked(row.station_id) else {
        return Ok(None);
    };
    let Some(name) = Name::checked(row.name) else {
        return Ok(None);
    };
    let Some(lat) = Micro::read(row.lat) else {
        return Ok(None);
    };
    let Some(lon) = Micro::read(row.lon) else {
        return Ok(None);
    };
    let Some(docks) = DockCount::read(row.docks) else {
        return Ok(None);
    };
    let station_id = Ident::of(alloc, station_id)?;
    let name = Name::of(alloc, name)?;
    Ok(Station::from_fields(station_id, name, lat, lon, docks))
}

/// The key of a row's request.
fn row_key(number: u64) -> ArrayString<KEY_LENGTH>
    ensures bytes { result.bytes ≡ key_of number }
    ensures good { is_key result.bytes ≡ true }
{
    let mut decimal = Buffer::new();
    let mut key = ArrayString::new();
    key.push_str("row-");
    key.push_str(decimal.format(number));
    key
}

/// The request to add the station, as the row of that number in the import of that name.
fn request_of(
    alloc: Global,
    name: &Ident,
    number: u64,
    station: Station,
) -> Result<Request, AllocError>
    requires { IsStation station }
    ensures made { IfOk result (λ request. request ≡ request_of name.now number station) }
    ensures good { IfOk result (λ request. IsRequest request) }
{
    Ok(Request {
        caller: Caller::Import(name.try_clone(alloc)?),
        key: RequestKey::of(alloc, row_key(number).as_str())?,
        command: Command::AddStation(station),
    })
}

/// The request of the row of that number in the import of that name.
pub fn row_request(
    alloc: Global,
    name: &Ident,
    number: u64,
    row: &StringRecord,
) -> Result<Request, ImportFault>
    ensures { MakesRequest name.now number (fields_of row.now) result }
{
    let Some(columns) = columns_of(row) else {
        return Err(ImportFault::Unreadable(number));
    };
    let Some(station) = read_station(alloc, &columns)? else {
        return Err(ImportFault::Row(number, Refusal::BadField));
    };
    Ok(request_of(alloc, name, number, station)?)
}
