//! Serving a list of requests.

ghost use Rattle.std.specs.Prelude.{◌≡◌, ◌≢◌, ◌≤◌, ◌<◌, ◌+◌, ◌++◌, IsNone, Some, [], ◌∷◌, length, vec_len};
ghost use Rattle.std.specs.Prelude.{vec_capacity};
ghost use Rattle.sqlite_trees.specs.View.{doubt};
ghost use Rattle.bike_schema.specs.Makes.{OthersStay};
ghost use Rattle.bike_schema.specs.Stands.{AllLeft};
ghost use Rattle.bike_desk.specs.Desk.{desk_state, OfOperator};
ghost use Rattle.bike_desk.specs.Runs.{Ran, IsAfterFront, StopsBy};

use crate::desk::Desk;
use crate::fault::DeskFault;
use bike_commands::{Reply, Request};
use bike_fixed::Moment;
use sqlite::Alter;
use std::alloc::Global;

/// The replies to a front of a list, and the fault that ended it.
#[derive(Drop)]
pub struct Run {
    /// The replies, in order.
    pub replies: Vec<Reply>,
    /// The fault of the request after them; None where the whole list is answered.
    pub end: Option<DeskFault>,
}

/// Adds a reply, for which there is room.
fn note(replies: &mut Vec<Reply>, reply: Reply)
    requires { vec_len replies.old < vec_capacity replies.old }
    ensures items { replies.new.items ≡ replies.old.items ++ reply ∷ [] }
    ensures len { vec_len replies.new ≡ vec_len replies.old + 1 }
    ensures capacity { vec_capacity replies.old ≤ vec_capacity replies.new }
{
    let _ = replies.push(reply);
}

impl<S: Alter> Desk<S> {
    /// Serves requests in order, each with the moment at which it comes, up to the first fault. Room for the replies is
    /// taken first: where that is refused, `NoMemory` comes before the first reply. Tables of other names stay as they
    /// are, but where the store failed nothing is said of them.
    ///
    /// A stopped desk answers every list `Stopped`, the empty one too, and stays as it is; no other desk
    /// answers that.
    pub fn run_list(&mut self, alloc: Global, calls: &[(Moment, Request)]) -> Run
        // The replies are those of the steps, and what a crash may leave is the operator after a front of the list.
        ensures clean { doubt (desk_state S.Store self.old).is_clean ≤ doubt (desk_state S.Store self.new).is_clean }
        ensures ran { OfOperator S.Store self.old self.new (λ s.
            Ran S.Store self.new s calls.now result.replies.items result.end) }
        ensures front { OfOperator S.Store self.old self.new (λ s.
            AllLeft (desk_state S.Store self.new) (IsAfterFront s calls.now (length result.replies.items))) }
        // Other tables stay.
        ensures others { OfOperator S.Store self.old self.new (λ s.
            result.end ≢ Some DeskFault.StoreFailed
            → OthersStay (desk_state S.Store self.old).now (desk_state S.Store self.new).now) }
        // The end: the fault, or that all were served.
        ensures stops { StopsBy self.old self.new result.end }
        ensures refused { result.end ≡ Some DeskFault.Stopped → result.replies.items ≡ [] }
        ensures whole { IsNone result.end → length result.replies.items ≡ length calls.now }
    {
        if self.stopped() {
            return Run {
                replies: Vec::new(alloc),
                end: Some(DeskFault::Stopped),
            };
        }
        let mut replies = match Vec::with_capacity(alloc, calls.len()) {
            Ok(replies) => replies,
            Err(_) => {
                return Run {
                    replies: Vec::new(alloc),
                    end: Some(DeskFault::NoMemory),
                };
            }
        };
        'calls: for (moment, request) in calls {
            match self.apply(alloc, *moment, request) {
                Ok(reply) => note(&mut replies, reply),
                Err(fault) => {
                    return Run {
                        replies,
                        end: Some(fault),
                    };
                }
            }
        }
        Run { replies, end: None }
    }
}
