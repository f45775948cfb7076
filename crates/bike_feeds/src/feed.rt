//! Whole feeds.

ghost use Rattle.std.specs.Prelude.{◌≡◌, false, IsTrue, OnOk, OnErr};
ghost use Rattle.std.specs.Io.KnownBytes.{Keeps};
ghost use Rattle.bike_json.specs.State.{outset};
ghost use Rattle.bike_desk.specs.Desk.{OfOperator};
ghost use Rattle.bike_feeds.specs.Publishing.{feed_text, IsPublished, IsBegun, LeavesDesk, WantsNoMemory};
ghost use Rattle.bike_feeds.specs.Walking.{WritesText};

use crate::fault::FeedFault;
use crate::list::{write_listing, write_system_information};
use crate::listing::Listing;
use bike_catalogue::System;
use bike_desk::Desk;
use bike_feed_texts::{Feed, write_gbfs};
use bike_fixed::Moment;
use bike_json::{JsonState, Output};
use sqlite::Alter;
use std::alloc::Global;
use std::io::Write;

/// Writes the feed of a system.
fn write_of_system<S: Alter, W: Output>(
    alloc: Global,
    desk: &mut Desk<S>,
    system: &System,
    feed: Feed,
    moment: Moment,
    json: &mut JsonState,
    out: &mut W,
) -> Result<(), FeedFault>
    requires going { desk.old.is_stopped ≡ false }
    requires start { json.old ≡ outset }
    ensures { WritesText S.Store desk.old desk.new (W.contents out.old) (W.contents out.new) result
        (λ s. feed_text s system.now feed moment) }
{
    let listing = match feed {
        Feed::Gbfs => {
            write_gbfs(json, out, system, moment)?;
            return Ok(());
        }
        Feed::SystemInformation => {
            return write_system_information(alloc, desk, system, moment, json, out);
        }
        Feed::VehicleTypes => Listing::Types,
        Feed::StationInformation => Listing::Stations,
        Feed::StationStatus => Listing::Statuses,
        Feed::SystemPricingPlans => Listing::Plans,
        Feed::SystemRegions => Listing::Regions,
    };
    write_listing(alloc, desk, system, listing, moment, json, out)
}

/// Writes the feed for a moment: the text of the operator for which the desk stands, and nothing else.
///
/// `SystemMissing` comes only where no system is set, and then nothing is written; after `Write` or a fault of the desk
/// a front of the text is. What is kept never changes. `Write` leaves the desk as it was, `StoreFailed` stops it, also
/// where memory is refused while a row is copied out, and a stopped desk answers `Stopped`, stays as it is and writes
/// nothing. `NoMemory` never comes: nothing here takes memory before the engine does.
pub fn write_feed<S: Alter, W: Write>(
    alloc: Global,
    desk: &mut Desk<S>,
    feed: Feed,
    moment: Moment,
    out: &mut W,
) -> Result<(), FeedFault>
    ensures desk { LeavesDesk S.Store desk.old desk.new result }
    ensures takes_none { WantsNoMemory result }
    ensures whole { OfOperator S.Store desk.old desk.new (λ s.
        OnOk result (IsPublished s feed moment (W.contents out.old) (W.contents out.new))) }
    ensures front { OfOperator S.Store desk.old desk.new (λ s.
        OnErr result (IsBegun s feed moment (W.contents out.old) (W.contents out.new))) }
    ensures nothing { IsTrue desk.old.is_stopped → Keeps (W.contents out.old) (W.contents out.new) }
{
    let Some(system) = desk.system(alloc)? else {
        return Err(FeedFault::SystemMissing);
    };
    let mut json = JsonState::new();
    write_of_system(alloc, desk, &system, feed, moment, &mut json, out)
}
