//! A feed of a database.

ghost use Rattle.std.specs.Prelude.{◌≡◌, ◌≤◌, false, Some};
ghost use Rattle.sqlite.specs.State.{HasCleanDisk};
ghost use Rattle.sqlite.specs.Held.{state};
ghost use Rattle.sqlite_trees.specs.View.{doubt};
ghost use Rattle.bike_operator.specs.Operator.{no_operator};
ghost use Rattle.bike_feed_texts.specs.declared.feed.Feed.{Feed};
ghost use Rattle.bike_schema.specs.Stands.{AllLeft, TreesStandFor};
ghost use Rattle.bike_desk.specs.Desk.{desk_state, OfOperator};
ghost use Rattle.bike_audit.specs.Adoption.{LeavesAll};
ghost use Rattle.bike_app.specs.Program.{CrashLeaves};
ghost use Rattle.bike_app.specs.Feeds.{PublishesAt, TellsFeed, TellsPublished, feed_end, moment_of};

use bike_audit::{Inspection, NoWatch, look};
use bike_console::Fault;
use bike_desk::Desk;
use bike_feed_texts::Feed;
use bike_feeds::{FeedFault, write_feed};
use bike_fixed::Moment;
use sqlite::{Alter, Connection};
use std::alloc::Global;
use std::io::Write;

/// The moment that is asked for, or the clock's where none is.
pub(crate) fn moment_of(at: Option<Moment>, clock: Option<Moment>) -> Option<Moment>
    ensures { result ≡ moment_of at clock }
{
    match at {
        Some(at) => Some(at),
        None => clock,
    }
}

/// What the program tells of a feed that was asked for.
fn told(published: Result<(), FeedFault>) -> Result<u64, Fault>
    ensures { result ≡ feed_end published }
{
    match published {
        Ok(()) => Ok(0),
        Err(fault) => Err(Fault::of_feed(fault)),
    }
}

/// Writes the feed of a desk for this moment.
fn publish_for<S: Alter, W: Write>(
    alloc: Global,
    desk: &mut Desk<S>,
    feed: Feed,
    moment: Moment,
    writer: &mut W,
) -> Result<u64, Fault>
    ensures clean { doubt (desk_state S.Store desk.old).is_clean ≤ doubt (desk_state S.Store desk.new).is_clean }
    ensures told { OfOperator S.Store desk.old desk.new (λ s.
        PublishesAt S.Store desk.new s feed (Some moment) (W.contents writer.old) (W.contents writer.new) result) }
    ensures left { OfOperator S.Store desk.old desk.new (λ s.
        AllLeft (desk_state S.Store desk.new) (desk_state S.Store desk.old).may_leave) }
{
    let published = write_feed(alloc, desk, feed, moment, writer);
    told(published)
}

/// Writes the feed of a desk for a moment; `NoClock` where the clock gave none.
fn publish_at<S: Alter, W: Write>(
    alloc: Global,
    desk: &mut Desk<S>,
    feed: Feed,
    moment: Option<Moment>,
    writer: &mut W,
) -> Result<u64, Fault>
    ensures clean { doubt (desk_state S.Store desk.old).is_clean ≤ doubt (desk_state S.Store desk.new).is_clean }
    ensures told { OfOperator S.Store desk.old desk.new (λ s.
        PublishesAt S.Store desk.new s feed moment (W.contents writer.old) (W.contents writer.new) result) }
    ensures left { OfOperator S.Store desk.old desk.new (λ s.
        AllLeft (desk_state S.Store desk.new) (desk_state S.Store desk.old).may_leave) }
{
    match moment {
        Some(moment) => publish_for(alloc, desk, feed, moment, writer),
        None => Err(Fault::NoClock),
    }
}

/// What is told of a feed of a database that has none of the product's tables: no system is set. `NoClock` where the
/// clock gave no moment.
fn publish_nobodys(moment: Option<Moment>) -> Result<u64, Fault>
    ensures { (feed : Feed) (written : _) → TellsFeed no_operator feed moment written written result }
{
    match moment {
        Some(_) => Err(Fault::SystemMissing),
        None => Err(Fault::NoClock),
    }
}

/// Looks at the database over a connection outside a transaction and writes a feed of it. Nothing of the database
/// changes: what a crash may leave of it is what it could leave before. Gives the connection back with the number 0, or
/// with the fault at which that ended: of a database with none of the product's tables `SystemMissing`.
pub fn publish<S: Alter, W: Write>(
    alloc: Global,
    feed: Feed,
    moment: Option<Moment>,
    conn: Connection<S>,
    writer: &mut W,
) -> (Connection<S>, Result<u64, Fault>)
    requires { conn.in_transaction ≡ false }
    ensures clean { doubt (state S.Store conn).is_clean ≤ doubt (state S.Store result.0).is_clean }
    ensures told { HasCleanDisk (state S.Store result.0)
        → TellsPublished S.Store (W.contents writer.old) (W.contents writer.new) conn result.0 feed moment result.1 }
    ensures kept { CrashLeaves S.Store conn result.0 TreesStandFor }
    ensures stays { LeavesAll S.Store conn result.0 }
{
    match look(alloc, conn, &mut NoWatch) {
        Ok(Inspection::Sound(conn)) => {
            let mut desk = Desk::over(conn);
            let end = publish_at(alloc, &mut desk, feed, moment, writer);
            (desk.close(), end)
        }
        Ok(Inspection::Empty(conn)) => (conn, publish_nobodys(moment)),
        Err(fault) => Fault::refused(fault),
    }
}
