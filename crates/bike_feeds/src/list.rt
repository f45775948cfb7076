//! The feeds whose data are a list.

ghost use Rattle.std.specs.Prelude.{◌≡◌, false};
ghost use Rattle.bike_json.specs.State.{outset};
ghost use Rattle.bike_feeds.specs.Listings.{listing_text};
ghost use Rattle.bike_feeds.specs.Publishing.{feed_text};
ghost use Rattle.bike_feeds.specs.Walking.{WritesText};

use crate::fault::FeedFault;
use crate::items::{write_elements, write_languages};
use crate::listing::Listing;
use bike_catalogue::System;
use bike_desk::Desk;
use bike_feed_texts::{Feed, close_information, close_list, open_information, open_list};
use bike_fields::NameKind;
use bike_fixed::Moment;
use bike_json::{JsonState, Output};
use sqlite::Alter;
use std::alloc::Global;

/// Writes the feed `system_information`, whose list is that of the languages.
pub(crate) fn write_system_information<S: Alter, W: Output>(
    alloc: Global,
    desk: &mut Desk<S>,
    system: &System,
    moment: Moment,
    json: &mut JsonState,
    out: &mut W,
) -> Result<(), FeedFault>
    requires going { desk.old.is_stopped ≡ false }
    requires start { json.old ≡ outset }
    ensures { WritesText S.Store desk.old desk.new (W.contents out.old) (W.contents out.new) result
        (λ s. feed_text s system.now Feed.SystemInformation moment) }
{
    open_information(json, out, system, moment)?;
    write_languages(alloc, desk, system, json, out)?;
    let names = desk.names_of(alloc, NameKind::System, system.system_id())?;
    close_information(json, out, system, names.as_slice())?;
    Ok(())
}

/// Writes the feed whose data are the list.
pub(crate) fn write_listing<S: Alter, W: Output>(
    alloc: Global,
    desk: &mut Desk<S>,
    system: &System,
    listing: Listing,
    moment: Moment,
    json: &mut JsonState,
    out: &mut W,
) -> Result<(), FeedFault>
    requires going { desk.old.is_stopped ≡ false }
    requires start { json.old ≡ outset }
    ensures { WritesText S.Store desk.old desk.new (W.contents out.old) (W.contents out.new) result
        (λ s. listing_text s system.now listing moment) }
{
    open_list(json, out, system, moment, listing.name())?;
    write_elements(alloc, desk, system, listing, json, out)?;
    close_list(json, out)?;
    Ok(())
}
