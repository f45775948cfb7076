//! The path of a target.

ghost use Rattle.std.specs.Prelude.{◌≡◌, ◌⊎◌, ◌↔◌, Some, IsTrue, codes};
ghost use Rattle.std.specs.Io.{StartsWith};
ghost use Rattle.bike_feed_texts.specs.declared.feed.Feed.{Feed};
ghost use Rattle.bike_http_head.specs.declared.routes.Route.TheVariants.{History, Publish};
ghost use Rattle.bike_http_head.specs.Table.{path_of, route_at};

/// The target up to the first `?`, as it stands.
pub fn path_of(target: &str) -> &str
    ensures { result.now ≡ path_of target.now }
{
    match target.split_once('?') {
        Some((path, _)) => path,
        None => target,
    }
}

/// Whether a target begins as that of every request for a feed does, or for a page of the history, whose answer may be
/// as long.
pub fn may_ask_feed(target: &[u8]) -> bool
    ensures front { IsTrue result
        ↔ (StartsWith target.now (codes "/gbfs/") ⊎ StartsWith target.now (codes "/history/")) }
    ensures feeds { (feed : Feed) → route_at (path_of target.now) ≡ Some (Publish feed) → IsTrue result }
    ensures history { route_at (path_of target.now) ≡ Some History → IsTrue result }
{
    target.starts_with(b"/gbfs/") || target.starts_with(b"/history/")
}
