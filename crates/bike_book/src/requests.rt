//! How many requests a history has.

ghost use Rattle.std.specs.Prelude.{◌≡◌, pos};
ghost use Rattle.bike_book.specs.Numbers.{count_of, next_count};

use std::marker::Model;

/// The most requests that the table `history` can have, which is the greatest number of a row.
pub const MOST_REQUESTS: u64 = 9_223_372_036_854_775_807;

/// How many requests a history has, which is the number of the last: at most `MOST_REQUESTS`.
#[derive(Clone, Copy, Debug, PartialEq, Eq)]
pub struct RequestCount {
    count: u64,
}

impl Model for RequestCount {
    ghost use Rattle.std.specs.Prelude.{ℕ, ◌≤◌};
    ghost use Rattle.bike_book.specs.Numbers.{most_requests};

    ghost Value = { ℕ };

    ghost view = { λ a. a.count };

    ghost invariant = { λ a. a.count ≤ most_requests };

    ghost inverse = { λ n. record { count = n } };
}

impl RequestCount {
    /// So many as the number of a row tells; none where it is negative.
    pub fn new(number: i64) -> Option<RequestCount>
        ensures { result ≡ count_of number }
    {
        match u64::try_from(number) {
            Ok(count) => Some(RequestCount { count }),
            Err(_) => None,
        }
    }

    /// The number, as a row has it.
    pub fn number(&self) -> i64
        ensures { result ≡ pos self.now }
    {
        self.count as i64
    }

    /// One more, where the table can have it.
    pub fn next(&self) -> Option<RequestCount>
        ensures { result ≡ next_count self.now }
    {
        if self.count < MOST_REQUESTS {
            return Some(RequestCount {
                count: self.count + 1,
            });
        }
        None
    }
}
