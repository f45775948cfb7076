//! Whose turn it is.

ghost use Rattle.std.specs.Prelude.{◌≡◌, ◌<◌, ◌≤◌, ◌-◌, ◌↔◌, ◌++◌, ◌∷◌, [], ◌&&◌, not, true, false, if◌then◌else◌};
ghost use Rattle.std.specs.Prelude.{IsTrue, IfOk, IfNone, length, option_to_list};
ghost use Rattle.std.specs.VecDeque.{deque_len, deque_capacity};
ghost use Rattle.bike_http_connections.specs.Turns.{IsDue};
ghost use Rattle.bike_http_connections.specs.declared.limits.TheConstants.{MOST_OPEN};

use crate::limits::{MOST_OPEN, TURN};
use std::alloc::{AllocError, Global};
use std::collections::VecDeque;

/// What is still handed out in a turn.
#[derive(Clone, Copy)]
pub(crate) struct Turn {
    /// How many requests that are no feeds.
    answers: usize,
    /// Whether a feed.
    may_publish: bool,
}

impl Turn {
    /// Nothing any more.
    pub(crate) fn over() -> Turn
        ensures { result ≡ record { answers = 0; may_publish = false } }
    {
        Turn {
            answers: 0,
            may_publish: false,
        }
    }

    /// All of it.
    pub(crate) fn begin() -> Turn
        ensures { result ≡ record { answers = TURN; may_publish = true } }
    {
        Turn {
            answers: TURN,
            may_publish: true,
        }
    }

    /// Takes one that is no feed; false where none is left.
    pub(crate) fn take_answer(&mut self) -> bool
        ensures some { IsTrue result ↔ 0 < self.old.answers }
        ensures left { self.new ≡ record self.old { answers = self.old.answers - 1 } }
    {
        let some = self.answers > 0;
        self.answers = self.answers.saturating_sub(1);
        some
    }

    /// Takes the one that may be a feed; false where it was taken.
    pub(crate) fn take_feed(&mut self) -> bool
        ensures some { result ≡ self.old.may_publish }
        ensures left { self.new ≡ record self.old { may_publish = false } }
    {
        let some = self.may_publish;
        self.may_publish = false;
        some
    }
}

/// The keys of those that go on, each queue in the order in which they came. A key is a hint: the connection may have
/// ended, and another have its key.
#[derive(Drop)]
pub(crate) struct Queues {
    /// Those whose request is there and asks for no feed.
    ready: VecDeque<usize>,
    /// Those whose request is there and may ask for a feed.
    feeds: VecDeque<usize>,
    /// Those that go on in the next turn.
    going: VecDeque<usize>,

    // None of them is short of memory before as many wait in it as may be open.
    ghost ready_room: { MOST_OPEN ≤ deque_capacity ready },
    ghost feeds_room: { MOST_OPEN ≤ deque_capacity feeds },
    ghost going_room: { MOST_OPEN ≤ deque_capacity going },
}

impl Queues {
    /// Nobody waits. Takes the memory for as many in each as may be open.
    pub(crate) fn new(alloc: Global) -> Result<Queues, AllocError>
        ensures ready { IfOk result (λ none. none.ready.items ≡ []) }
        ensures feeds { IfOk result (λ none. none.feeds.items ≡ []) }
        ensures going { IfOk result (λ none. none.going.items ≡ []) }
    {
        Ok(Queues {
            ready: VecDeque::with_capacity(alloc, MOST_OPEN)?,
            feeds: VecDeque::with_capacity(alloc, MOST_OPEN)?,
            going: VecDeque::with_capacity(alloc, MOST_OPEN)?,
        })
    }

    /// One more has its request, which may ask for a feed; false where memory is refused. None is asked for before as
    /// many wait as may be open.
    pub(crate) fn add(&mut self, key: usize, may_be_feed: bool) -> bool
        ensures ready { self.new.ready.items
            ≡ (if result && not may_be_feed then self.old.ready.items ++ key ∷ [] else self.old.ready.items) }
        ensures feeds { self.new.feeds.items
            ≡ (if result && may_be_feed then self.old.feeds.items ++ key ∷ [] else self.old.feeds.items) }
        ensures going { self.new.going ≡ self.old.going }
        ensures few { length (if may_be_feed then self.old.feeds.items else self.old.ready.items) < MOST_OPEN
            → IsTrue result }
    {
        if may_be_feed {
            self.feeds.push_back(key).is_ok()
        } else {
            self.ready.push_back(key).is_ok()
        }
    }

    /// The next that has its request, of those that may ask for a feed, or of the others.
    pub(crate) fn next(&mut self, is_feed: bool) -> Option<usize>
        ensures first { (if is_feed then self.old.feeds.items else self.old.ready.items)
            ≡ option_to_list result ++ (if is_feed then self.new.feeds.items else self.new.ready.items) }
        ensures none { IfNone result ((if is_feed then self.old.feeds.items else self.old.ready.items) ≡ []) }
        ensures others { (if is_feed then self.new.ready else self.new.feeds)
            ≡ (if is_feed then self.old.ready else self.old.feeds) }
        ensures going { self.new.going ≡ self.old.going }
    {
        if is_feed {
            self.feeds.pop_front()
        } else {
            self.ready.pop_front()
        }
    }

    /// One more goes on in the next turn; false where memory is refused. None is asked for before as many wait as may
    /// be open.
    pub(crate) fn put_off(&mut self, key: usize) -> bool
        ensures going { self.new.going.items
            ≡ (if result then self.old.going.items ++ key ∷ [] else self.old.going.items) }
        ensures ready { self.new.ready ≡ self.old.ready }
        ensures feeds { self.new.feeds ≡ self.old.feeds }
        ensures few { length self.old.going.items < MOST_OPEN → IsTrue result }
    {
        self.going.push_back(key).is_ok()
    }

    /// The next of those that were put off.
    pub(crate) fn next_put_off(&mut self) -> Option<usize>
        ensures first { self.old.going.items ≡ option_to_list result ++ self.new.going.items }
        ensures none { IfNone result (self.old.going.items ≡ []) }
        ensures ready { self.new.ready ≡ self.old.ready }
        ensures feeds { self.new.feeds ≡ self.old.feeds }
    {
        self.going.pop_front()
    }

    /// How many were put off.
    pub(crate) fn count_put_off(&self) -> usize
        ensures { result ≡ deque_len self.now.going }
    {
        self.going.len()
    }

    /// Nobody has its request any more.
    pub(crate) fn close(&mut self)
        ensures ready { self.new.ready.items ≡ [] }
        ensures feeds { self.new.feeds.items ≡ [] }
        ensures going { self.new.going ≡ self.old.going }
    {
        self.ready.clear();
        self.feeds.clear();
    }

    /// Whether one goes on without waiting.
    pub(crate) fn has_work(&self, fits_feed: bool) -> bool
        ensures { IsTrue result ↔ IsDue (length self.now.ready.items) (length self.now.going.items)
            (length self.now.feeds.items) (IsTrue fits_feed) }
    {
        self.ready.len() > 0 || self.going.len() > 0 || (self.feeds.len() > 0 && fits_feed)
    }
}
