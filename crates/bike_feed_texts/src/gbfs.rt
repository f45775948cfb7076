//! The feed that lists the others.

ghost use Rattle.std.specs.Prelude.{◌≡◌, ◌<◌, ◌++◌, [], IsTrue, length, false, is_ok, not, codes};
ghost use Rattle.bike_json.specs.Rows.{items};
ghost use Rattle.bike_json.specs.Tree.{items_text};
ghost use Rattle.bike_json.specs.State.{IsAt, Wrote, takes_value, takes_array_end, after_value};
ghost use Rattle.bike_operator.specs.Operator.{Operator};
ghost use Rattle.bike_feed_texts.specs.Elements.{link_tree};
ghost use Rattle.bike_feed_texts.specs.Feeds.{feed_url};
ghost use Rattle.bike_feed_texts.specs.Trees.{feed_tree};
ghost use Rattle.bike_feed_texts.specs.Writing.{WroteValue};

use crate::feed::Feed;
use crate::frame::{close_list, open_list};
use crate::members::text_member;
use arrayvec::ArrayString;
use bike_catalogue::System;
use bike_fixed::Moment;
use bike_json::{JsonState, Level, Output, member};
use bike_stream::WriteFault;

/// The feeds that are listed.
const LISTED: [Feed; 6] = [
    Feed::SystemInformation,
    Feed::VehicleTypes,
    Feed::StationInformation,
    Feed::StationStatus,
    Feed::SystemPricingPlans,
    Feed::SystemRegions,
];

/// The room for a URL: a base of at most 200 bytes, the path, and the longest name of a feed.
const URL_ROOM: usize = 256;

/// Where a feed is found.
fn url_of(system: &System, feed: Feed) -> ArrayString<URL_ROOM>
    ensures { result.bytes ≡ feed_url system.now.base_url feed }
{
    let mut url = ArrayString::new();
    url.push_str(system.base_url().as_str());
    url.push_str("/gbfs/3.0/");
    url.push_str(feed.name());
    url.push_str(".json");
    url
}

fn write_link<W: Output>(json: &mut JsonState, out: &mut W, system: &System, feed: &Feed)
    requires value { IsTrue (takes_value json.old.top) }
    requires room { length json.old.round < 16 }
    ensures wrote { WroteValue json.old json.new (W.contents out.old) (W.contents out.new)
        (link_tree system.now feed.now) }
    ensures place { IsAt json.new (after_value json.old.top) json.old.round }
{
    let url = url_of(system, *feed);
    let _ = json.begin_object(out);
    text_member(json, out, member!("name"), feed.name());
    text_member(json, out, member!("url"), url.as_str());
    let _ = json.end_object(out);
}

/// The links to feeds as items.
fn write_links<W: Output>(json: &mut JsonState, out: &mut W, system: &System, feeds: &[Feed])
    requires top { json.old.top ≡ Level.EmptyArray }
    requires room { length json.old.round < 16 }
    ensures wrote { Wrote json.old json.new (W.contents out.old) (W.contents out.new)
        (items_text false (items (link_tree system.now) feeds.now)) }
    ensures place { IsTrue (takes_array_end json.new.top) × (json.new.round ≡ json.old.round) }
{
    for feed in feeds {
        write_link(json, out, system, feed);
    }
}

/// Writes the feed `gbfs` of a system, which depends on no more of the operator.
pub fn write_gbfs<W: Output>(
    json: &mut JsonState,
    out: &mut W,
    system: &System,
    moment: Moment,
) -> Result<(), WriteFault>
    requires { IsAt json.old Level.Start [] }
    ensures wrote { (s : Operator) → WroteValue json.old json.new (W.contents out.old) (W.contents out.new)
        (feed_tree s system.now Feed.Gbfs moment) }
    ensures place { IsAt json.new Level.Done [] }
    ensures outcome { is_ok result ≡ not json.new.failed }
{
    let _ = open_list(json, out, system, moment, member!("feeds"));
    write_links(json, out, system, &LISTED);
    close_list(json, out)
}
