//! The elements of `station_status`.

ghost use Rattle.std.specs.Prelude.{◌≡◌, ◌<◌, IsTrue, length, false, is_ok, not, ◌&&◌};
ghost use Rattle.bike_json.specs.Rows.{items};
ghost use Rattle.bike_json.specs.State.{IsAt, Wrote, takes_name, takes_value, takes_array_end, after_value};
ghost use Rattle.bike_json.specs.Tree.{array, items_text};
ghost use Rattle.bike_feed_texts.specs.Elements.{members, type_count_tree, counts_members, report_members, status_tree};
ghost use Rattle.bike_feed_texts.specs.Writing.{WroteMember, WroteMembers, WroteValue, report_row, counts_row};

use crate::members::{flag_member, moment_member, text_member, whole_member};
use bike_json::{JsonState, Level, MemberName, Output, member};
use bike_operator::{Counts, StationInfo, TypeCount};
use bike_stream::WriteFault;

fn write_type_count<W: Output>(json: &mut JsonState, out: &mut W, count: &TypeCount)
    requires value { IsTrue (takes_value json.old.top) }
    requires room { length json.old.round < 16 }
    ensures wrote { WroteValue json.old json.new (W.contents out.old) (W.contents out.new) (type_count_tree count.now) }
    ensures place { IsAt json.new (after_value json.old.top) json.old.round }
{
    let _ = json.begin_object(out);
    text_member(
        json,
        out,
        member!("vehicle_type_id"),
        count.type_id.as_str(),
    );
    whole_member(json, out, member!("count"), count.count);
    let _ = json.end_object(out);
}

/// The counts by type as items.
fn write_type_counts<W: Output>(json: &mut JsonState, out: &mut W, counts: &[TypeCount])
    requires top { json.old.top ≡ Level.EmptyArray }
    requires room { length json.old.round < 16 }
    ensures wrote { Wrote json.old json.new (W.contents out.old) (W.contents out.new)
        (items_text false (items type_count_tree counts.now)) }
    ensures place { IsTrue (takes_array_end json.new.top) × (json.new.round ≡ json.old.round) }
{
    for count in counts {
        write_type_count(json, out, count);
    }
}

/// The counts by type as a member.
fn type_counts_member<W: Output>(
    json: &mut JsonState,
    out: &mut W,
    name: MemberName,
    counts: &[TypeCount],
)
    requires name { IsTrue (takes_name json.old.top) }
    requires room { length json.old.round < 15 }
    ensures wrote { WroteMember json.old json.new (W.contents out.old) (W.contents out.new) name.plain.now
        (array (items type_count_tree counts.now)) }
    ensures place { IsAt json.new Level.FilledObject json.old.round }
{
    let _ = json.member(out, name);
    let _ = json.begin_array(out);
    write_type_counts(json, out, counts);
    let _ = json.end_array(out);
}

fn counts_members<W: Output>(json: &mut JsonState, out: &mut W, counts: &Counts)
    requires top { json.old.top ≡ Level.FilledObject }
    requires room { length json.old.round < 15 }
    ensures wrote { WroteMembers json.old json.new (W.contents out.old) (W.contents out.new)
        (members (counts_members (counts_row counts.now))) }
    ensures place { IsAt json.new Level.FilledObject json.old.round }
{
    whole_member(
        json,
        out,
        member!("num_vehicles_available"),
        counts.available,
    );
    type_counts_member(
        json,
        out,
        member!("vehicle_types_available"),
        counts.by_type.as_slice(),
    );
    whole_member(json, out, member!("num_vehicles_disabled"), counts.disabled);
    whole_member(
        json,
        out,
        member!("num_docks_available"),
        counts.docks_available,
    );
    whole_member(
        json,
        out,
        member!("num_docks_disabled"),
        counts.docks_disabled,
    );
}

/// Whether the station is installed and the flag is set.
fn while_installed(station: &StationInfo, flag: bool) -> bool
    ensures { result ≡ station.now.is_installed && flag }
{
    station.is_installed && flag
}

fn report_members<W: Output>(json: &mut JsonState, out: &mut W, station: &StationInfo)
    requires { json.old.top ≡ Level.FilledObject }
    ensures wrote { WroteMembers json.old json.new (W.contents out.old) (W.contents out.new)
        (members (report_members (report_row station.now))) }
    ensures place { IsAt json.new Level.FilledObject json.old.round }
{
    flag_member(json, out, member!("is_installed"), station.is_installed);
    flag_member(
        json,
        out,
        member!("is_renting"),
        while_installed(station, station.is_renting),
    );
    flag_member(
        json,
        out,
        member!("is_returning"),
        while_installed(station, station.is_returning),
    );
    moment_member(json, out, member!("last_reported"), station.reported);
}

/// Writes the status of a station. It rents bicycles and takes them back only while it is installed.
pub fn write_status<W: Output>(
    json: &mut JsonState,
    out: &mut W,
    station: &StationInfo,
    counts: &Counts,
) -> Result<(), WriteFault>
    requires value { IsTrue (takes_value json.old.top) }
    requires room { length json.old.round < 14 }
    ensures wrote { WroteValue json.old json.new (W.contents out.old) (W.contents out.new)
        (status_tree (report_row station.now) (counts_row counts.now)) }
    ensures place { IsAt json.new (after_value json.old.top) json.old.round }
    ensures outcome { is_ok result ≡ not json.new.failed }
{
    let _ = json.begin_object(out);
    text_member(
        json,
        out,
        member!("station_id"),
        station.station.station_id().as_str(),
    );
    counts_members(json, out, counts);
    report_members(json, out, station);
    json.end_object(out)
}
