//! What is read of a desk that was taken into service again.

ghost use Rattle.std.specs.Prelude.{◌≤◌};
ghost use Rattle.sqlite_trees.specs.View.{doubt};
ghost use Rattle.bike_desk.specs.Desk.{desk_state, OfOperator};
ghost use Rattle.bike_recovery.specs.Recovery.{ReadsOf};

use bike_desk::{Desk, DeskFault};
use bike_feed_texts::Feed;
use bike_feeds::{FeedFault, write_feed};
use bike_fields::BicycleNumber;
use bike_fixed::Moment;
use bike_operator::Place;
use sqlite::Alter;
use std::alloc::Global;
use std::io::Write;

/// What was read.
#[derive(Drop)]
pub struct Reading {
    /// Where the bicycle is, or none where the operator has no such bicycle.
    pub place: Result<Option<Place>, DeskFault>,
    /// How writing the feed `station_status` ended.
    pub status: Result<(), FeedFault>,
}

/// Asks a desk where a bicycle is, and writes the feed `station_status` for a moment.
pub fn read_again<S: Alter, W: Write>(
    alloc: Global,
    desk: &mut Desk<S>,
    bike: BicycleNumber,
    moment: Moment,
    out: &mut W,
) -> Reading
    ensures clean { doubt (desk_state S.Store desk.old).is_clean ≤ doubt (desk_state S.Store desk.new).is_clean }
    ensures reads { OfOperator S.Store desk.old desk.new (λ s.
        ReadsOf S.Store desk.new s bike moment (W.contents out.old) (W.contents out.new) result) }
{
    let place = desk.place(alloc, bike);
    let status = write_feed(alloc, desk, Feed::StationStatus, moment, out);
    Reading { place, status }
}
