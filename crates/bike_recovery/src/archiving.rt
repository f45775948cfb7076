//! What is published of a city whose past was archived.

ghost use Rattle.std.specs.Prelude.{◌≡◌, ℕ, List};
ghost use Rattle.bike_catalogue.specs.Rows.{SystemRow};
ghost use Rattle.bike_operator.specs.Operator.{Operator};
ghost use Rattle.bike_operator.specs.Sound.{IsSound, AreCalls};
ghost use Rattle.bike_operator.specs.Runs.{Call, after};
ghost use Rattle.bike_feed_texts.specs.declared.feed.Feed.{Feed};
ghost use Rattle.bike_feeds.specs.Publishing.{feed_text};
ghost use Rattle.bike_laws.specs.Archiving.{Front, MayArchive, archived, AreOthers};

/// The law of archived cities: after each list of requests that were not archived, and that name no archived rental,
/// there is the system that there would be, and each feed for a moment is, byte for byte, what it would be, had nothing
/// been archived before the list.
pub fn archived_feeds_law()
    ensures system { (f : Front) (s : Operator) (cs : List Call) → IsSound s → MayArchive f s → AreCalls cs
        → AreOthers f s cs → (after (archived f s) cs).system ≡ (after s cs).system }
    ensures feeds { (f : Front) (s : Operator) (cs : List Call) (x : SystemRow) (feed : Feed) (moment : ℕ) → IsSound s
        → MayArchive f s → AreCalls cs → AreOthers f s cs
        → feed_text (after (archived f s) cs) x feed moment ≡ feed_text (after s cs) x feed moment }
{}
