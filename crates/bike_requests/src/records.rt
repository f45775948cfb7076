//! Reading and writing the commands with a record of the catalogue, or with a position.

ghost use Rattle.std.specs.Prelude.{◌≡◌, ◌++◌, OnOk, codes, string_bytes};
ghost use Rattle.bike_texts.specs.Fields.{fields_text};
ghost use Rattle.bike_commands.specs.declared.command.Command.TheVariants.{SetSystem, AddPlan, AddType, AddStation};
ghost use Rattle.bike_commands.specs.declared.command.Command.TheVariants.{AddRegion, ChangeSystem, MoveStation};
ghost use Rattle.bike_commands.specs.Commands.{text_of};
ghost use Rattle.bike_requests.specs.Readers.{command_by};
ghost use Rattle.bike_requests.specs.Unread.{IsReading};

use crate::owned::Segments;
use crate::spelled::{put, read};
use crate::unread::Unread;
use bike_catalogue::{Plan, Region, Settings, Station, System, VehicleType};
use bike_commands::Command;
use bike_fields::{GREATEST_LATITUDE, Ident, Position};
use bike_fixed::GREATEST_COORDINATE;
use bike_texts::{Degrees, Fields, Range};
use std::alloc::{AllocError, Global};

type Latitude = Degrees<GREATEST_LATITUDE>;

type Longitude = Degrees<GREATEST_COORDINATE>;

#[tactic(auto, unfolding(crate::specs::Readers::command_by))]
pub(crate) fn read_set_system(alloc: Global, fields: Fields) -> Result<Command, Unread>
    ensures { IsReading (command_by (codes "set-system") fields.entry) result }
{
    let (id, (language, (name, (hours, (email, (zone, (currency, (url, ttl)))))))) = read(
        alloc, fields,
    )?;
    let system = System::from_fields(id, language, name, hours, email, zone, currency, url, ttl);
    Ok(Command::SetSystem(system))
}

#[tactic(auto, unfolding(crate::specs::Readers::command_by))]
pub(crate) fn read_add_plan(alloc: Global, fields: Fields) -> Result<Command, Unread>
    ensures { IsReading (command_by (codes "add-plan") fields.entry) result }
{
    let (id, (name, (price, (taxable, (description, Segments { list }))))) = read(alloc, fields)?;
    let made = Plan::from_fields(id, name, price, taxable, description, list);
    made.map(Command::AddPlan).ok_or(Unread::BadField)
}

#[tactic(auto, unfolding(crate::specs::Readers::command_by))]
pub(crate) fn read_add_type(alloc: Global, fields: Fields) -> Result<Command, Unread>
    ensures { IsReading (command_by (codes "add-type") fields.entry) result }
{
    let (id, (name, (form, (Range { propulsion, metres }, plan)))) = read(alloc, fields)?;
    let made = VehicleType::from_fields(id, name, form, propulsion, metres, plan);
    made.map(Command::AddType).ok_or(Unread::BadField)
}

#[tactic(auto, unfolding(crate::specs::Readers::command_by))]
pub(crate) fn read_add_station(alloc: Global, fields: Fields) -> Result<Command, Unread>
    ensures { IsReading (command_by (codes "add-station") fields.entry) result }
{
    let (id, (name, (lat, (lon, docks)))): (_, (_, (Latitude, (Longitude, _)))) = read(
        alloc, fields,
    )?;
    let made = Station::from_fields(id, name, lat.value, lon.value, docks);
    made.map(Command::AddStation).ok_or(Unread::BadField)
}

#[tactic(auto, unfolding(crate::specs::Readers::command_by))]
pub(crate) fn read_add_region(alloc: Global, fields: Fields) -> Result<Command, Unread>
    ensures { IsReading (command_by (codes "add-region") fields.entry) result }
{
    let (id, name) = read(alloc, fields)?;
    Ok(Command::AddRegion(Region::from_fields(id, name)))
}

#[tactic(auto, unfolding(crate::specs::Readers::command_by))]
pub(crate) fn read_change_system(alloc: Global, fields: Fields) -> Result<Command, Unread>
    ensures { IsReading (command_by (codes "change-system") fields.entry) result }
{
    let (name, (hours, (email, (zone, (url, ttl))))) = read(alloc, fields)?;
    let settings = Settings::from_fields(name, hours, email, zone, url, ttl);
    Ok(Command::ChangeSystem(settings))
}

#[tactic(auto, unfolding(crate::specs::Readers::command_by))]
pub(crate) fn read_move_station(alloc: Global, fields: Fields) -> Result<Command, Unread>
    ensures { IsReading (command_by (codes "move-station") fields.entry) result }
{
    let (station, (lat, lon)): (_, (Latitude, Longitude)) = read(alloc, fields)?;
    let position = Position::from_fields(lat.value, lon.value).ok_or(Unread::BadField)?;
    Ok(Command::MoveStation { station, position })
}

pub(crate) fn put_set_system(out: &mut String, system: &System) -> Result<(), AllocError>
    ensures { OnOk result (string_bytes out.new ≡ string_bytes out.old ++ text_of (SetSystem system.now)) }
{
    let last = (system.currency(), (system.base_url(), &system.ttl()));
    let service = (system.feed_contact_email(), (system.timezone(), last));
    let named = (system.name(), (system.opening_hours(), service));
    put(
        out,
        "set-system",
        &(system.system_id(), (system.language(), named)),
    )
}

pub(crate) fn put_add_plan(out: &mut String, plan: &Plan) -> Result<(), AllocError>
    ensures { OnOk result (string_bytes out.new ≡ string_bytes out.old ++ text_of (AddPlan plan.now)) }
{
    let last = (&plan.taxable(), (plan.description(), plan.segments()));
    put(
        out,
        "add-plan",
        &(plan.plan_id(), (plan.name(), (&plan.price(), last))),
    )
}

pub(crate) fn put_add_type(out: &mut String, kind: &VehicleType) -> Result<(), AllocError>
    ensures { OnOk result (string_bytes out.new ≡ string_bytes out.old ++ text_of (AddType kind.now)) }
{
    let range = Range {
        propulsion: kind.propulsion(),
        metres: kind.max_range(),
    };
    let last = (&kind.form(), (&range, kind.plan_id()));
    put(out, "add-type", &(kind.type_id(), (kind.name(), last)))
}

pub(crate) fn put_add_station(out: &mut String, station: &Station) -> Result<(), AllocError>
    ensures { OnOk result (string_bytes out.new ≡ string_bytes out.old ++ text_of (AddStation station.now)) }
{
    let lat = Latitude {
        value: station.lat(),
    };
    let lon = Longitude {
        value: station.lon(),
    };
    let last = (&lat, (&lon, &station.docks()));
    put(
        out,
        "add-station",
        &(station.station_id(), (station.name(), last)),
    )
}

pub(crate) fn put_add_region(out: &mut String, region: &Region) -> Result<(), AllocError>
    ensures { OnOk result (string_bytes out.new ≡ string_bytes out.old ++ text_of (AddRegion region.now)) }
{
    put(out, "add-region", &(region.region_id(), region.name()))
}

pub(crate) fn put_change_system(out: &mut String, settings: &Settings) -> Result<(), AllocError>
    ensures { OnOk result (string_bytes out.new ≡ string_bytes out.old ++ text_of (ChangeSystem settings.now)) }
{
    let last = (settings.timezone(), (settings.base_url(), &settings.ttl()));
    let contact = (settings.feed_contact_email(), last);
    put(
        out,
        "change-system",
        &(settings.name(), (settings.opening_hours(), contact)),
    )
}

pub(crate) fn put_move_station(
    out: &mut String,
    station: &Ident,
    position: &Position,
) -> Result<(), AllocError>
    ensures { OnOk result (string_bytes out.new ≡ string_bytes out.old
        ++ text_of (MoveStation station.now position.now)) }
{
    let lat = Latitude {
        value: position.lat(),
    };
    let lon = Longitude {
        value: position.lon(),
    };
    put(out, "move-station", &(station, (&lat, &lon)))
}
