//! The elements of the feeds' lists, each read from the desk as it is written, with its further names.

ghost use Rattle.std.specs.Prelude.{◌≡◌, ◌<◌, ◌∷◌, IsTrue, length, false, is_ok, not};
ghost use Rattle.std.specs.FinMap.{values};
ghost use Rattle.bike_json.specs.Rows.{items};
ghost use Rattle.bike_json.specs.State.{IsAt as IsIn, takes_value, after_value};
ghost use Rattle.bike_json.specs.Tree.{text};
ghost use Rattle.bike_feed_texts.specs.Elements.{station_tree, status_tree};
ghost use Rattle.bike_feed_texts.specs.Trees.{report_of, further_languages};
ghost use Rattle.bike_feed_texts.specs.Writing.{WroteValue, counts_row, in_list};
ghost use Rattle.bike_queries.specs.After.{station_of};
ghost use Rattle.bike_feeds.specs.Listings.{elements, statuses};
ghost use Rattle.bike_feeds.specs.Walking.{WritesItems};
ghost use Rattle.bike_feeds.specs.declared.listing.Listing.TheVariants.{Stations};

use crate::fault::FeedFault;
use crate::listed::Listed;
use crate::listing::Listing;
use crate::names::is_translated;
use crate::pages::{next_station, next_status};
use bike_catalogue::{Plan, Region, System, VehicleType};
use bike_desk::Desk;
use bike_feed_texts::{write_language, write_station, write_status};
use bike_json::{JsonState, Level, Output};
use bike_queries::{NamedStation, StationStatus};
use bike_stream::WriteFault;
use sqlite::Alter;
use std::alloc::Global;
use std::collections::VecDeque;

/// Writes what the feed lists as items, each read as it is written.
fn write_listed<L: Listed, S: Alter, W: Output>(
    alloc: Global,
    desk: &mut Desk<S>,
    system: &System,
    json: &mut JsonState,
    out: &mut W,
) -> Result<(), FeedFault>
    requires going { desk.old.is_stopped ≡ false }
    requires place { IsIn json.old Level.EmptyArray in_list }
    ensures { WritesItems S.Store desk.old desk.new json.old json.new (W.contents out.old) (W.contents out.new) result
        (λ s. items (L.element s system.now) (values (L.held s))) }
{
    let translated = is_translated(alloc, desk)?;
    let mut next = L::next_after(alloc, desk, None)?;
    'list: while json.count() < u64::MAX {
        let Some(listed) = next else {
            return Ok(());
        };
        let names = listed.further(alloc, desk, translated)?;
        listed.write(json, out, system, &names)?;
        let id = listed.identifier();
        next = L::next_after(alloc, desk, Some(id))?;
    }
    // No count is greater.
    Err(FeedFault::Write)
}

/// Writes a station with its further names.
fn write_named<W: Output>(
    json: &mut JsonState,
    out: &mut W,
    system: &System,
    named: &NamedStation,
) -> Result<(), WriteFault>
    requires value { IsTrue (takes_value json.old.top) }
    requires room { length json.old.round < 14 }
    ensures wrote { WroteValue json.old json.new (W.contents out.old) (W.contents out.new)
        (station_tree system.now named.now.info.station named.now.info.region named.now.names.items) }
    ensures place { IsIn json.new (after_value json.old.top) json.old.round }
    ensures outcome { is_ok result ≡ not json.new.failed }
{
    let NamedStation { info, names } = named;
    let region = info.region.as_ref();
    write_station(json, out, system, &info.station, region, names.as_slice())
}

/// Writes the stations as items.
fn write_stations<S: Alter, W: Output>(
    alloc: Global,
    desk: &mut Desk<S>,
    system: &System,
    json: &mut JsonState,
    out: &mut W,
) -> Result<(), FeedFault>
    requires going { desk.old.is_stopped ≡ false }
    requires place { IsIn json.old Level.EmptyArray in_list }
    ensures { WritesItems S.Store desk.old desk.new json.old json.new (W.contents out.old) (W.contents out.new) result
        (λ s. elements s system.now Stations) }
{
    let translated = is_translated(alloc, desk)?;
    let mut page = VecDeque::new(alloc);
    let mut next = next_station(alloc, desk, &mut page, None, translated)?;
    'stations: while json.count() < u64::MAX {
        let Some(named) = next else {
            return Ok(());
        };
        write_named(json, out, system, &named)?;
        let station = named.info.station.station_id();
        next = next_station(alloc, desk, &mut page, Some(station), translated)?;
    }
    // No count is greater.
    Err(FeedFault::Write)
}

/// Writes a station's status.
fn write_report<W: Output>(
    json: &mut JsonState,
    out: &mut W,
    status: &StationStatus,
) -> Result<(), WriteFault>
    requires value { IsTrue (takes_value json.old.top) }
    requires room { length json.old.round < 14 }
    ensures wrote { WroteValue json.old json.new (W.contents out.old) (W.contents out.new)
        (status_tree (report_of (station_of status.now.info)) (counts_row status.now.counts)) }
    ensures place { IsIn json.new (after_value json.old.top) json.old.round }
    ensures outcome { is_ok result ≡ not json.new.failed }
{
    write_status(json, out, &status.info, &status.counts)
}

/// Writes the stations' statuses as items. The types' identifiers are read once, before the first station.
fn write_statuses<S: Alter, W: Output>(
    alloc: Global,
    desk: &mut Desk<S>,
    json: &mut JsonState,
    out: &mut W,
) -> Result<(), FeedFault>
    requires going { desk.old.is_stopped ≡ false }
    requires place { IsIn json.old Level.EmptyArray in_list }
    ensures { WritesItems S.Store desk.old desk.new json.old json.new (W.contents out.old) (W.contents out.new) result
        (λ s. statuses s) }
{
    let type_ids = desk.type_ids(alloc)?;
    let mut page = VecDeque::new(alloc);
    let mut next = next_status(alloc, desk, &mut page, None, type_ids.as_slice())?;
    'stations: while json.count() < u64::MAX {
        let Some(status) = next else {
            return Ok(());
        };
        write_report(json, out, &status)?;
        let station = status.info.station.station_id();
        next = next_status(alloc, desk, &mut page, Some(station), type_ids.as_slice())?;
    }
    // No count is greater.
    Err(FeedFault::Write)
}

/// Writes the elements of the list as items.
pub(crate) fn write_elements<S: Alter, W: Output>(
    alloc: Global,
    desk: &mut Desk<S>,
    system: &System,
    listing: Listing,
    json: &mut JsonState,
    out: &mut W,
) -> Result<(), FeedFault>
    requires going { desk.old.is_stopped ≡ false }
    requires place { IsIn json.old Level.EmptyArray in_list }
    ensures { WritesItems S.Store desk.old desk.new json.old json.new (W.contents out.old) (W.contents out.new) result
        (λ s. elements s system.now listing) }
{
    match listing {
        Listing::Types => write_listed::<VehicleType, S, W>(alloc, desk, system, json, out),
        Listing::Stations => write_stations(alloc, desk, system, json, out),
        Listing::Statuses => write_statuses(alloc, desk, json, out),
        Listing::Plans => write_listed::<Plan, S, W>(alloc, desk, system, json, out),
        Listing::Regions => write_listed::<Region, S, W>(alloc, desk, system, json, out),
    }
}

/// Writes the languages as items: the system's, and then each further one.
pub(crate) fn write_languages<S: Alter, W: Output>(
    alloc: Global,
    desk: &mut Desk<S>,
    system: &System,
    json: &mut JsonState,
    out: &mut W,
) -> Result<(), FeedFault>
    requires going { desk.old.is_stopped ≡ false }
    requires place { IsIn json.old Level.EmptyArray in_list }
    ensures { WritesItems S.Store desk.old desk.new json.old json.new (W.contents out.old) (W.contents out.new) result
        (λ s. items text (system.now.language ∷ further_languages s)) }
{
    write_language(json, out, system.language())?;
    let mut next = desk.language_after(alloc, None)?;
    'languages: while json.count() < u64::MAX {
        let Some(language) = next else {
            return Ok(());
        };
        write_language(json, out, &language)?;
        next = desk.language_after(alloc, Some(&language))?;
    }
    // No count is greater.
    Err(FeedFault::Write)
}
