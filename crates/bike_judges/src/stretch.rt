//! Lines in stretches.

ghost use Rattle.std.specs.Prelude.{◌≡◌, List, Option, None, IfOk, OnOk, option_map, [], ◌∷◌, take};
ghost use Rattle.sqlite_value.specs.Order.{Row};
ghost use Rattle.bike_judges.specs.Judging.{Continues, key_row};
ghost use Rattle.bike_judges.specs.Passes.{pass};
ghost use Rattle.bike_judges.specs.Closing.{Closes};

use crate::judge::Judge;
use crate::key::BadKey;
use crate::pass::{Account, Opening};
use bike_schema::StatementFault;
use sqlite::Row;
use std::alloc::Global;

/// A judge of lines in stretches: a head opens an account, and the lines after it are added to that.
#[derive(Drop)]
pub struct StretchJudge<A> {
    alloc: Global,
    /// The open account, if there is one.
    pub account: Option<A>,
    /// How many accounts were closed so far: they were good.
    pub closed: u64,
}

impl<A: Account> StretchJudge<A> {
    /// Before the first line.
    pub fn new(alloc: Global) -> StretchJudge<A>
        ensures account { result.account ≡ None }
        ensures closed { result.closed ≡ 0 }
        ensures says { (lines : List Row) (verdict : Option Row)
            → pass A.begins A.more A.good A.key (take 1) None 0 lines ≡ verdict
            → pass A.begins A.more A.good A.key (take 1) result.account result.closed lines ≡ verdict }
    {
        StretchJudge {
            alloc,
            account: None,
            closed: 0,
        }
    }

    /// Closes the open account, where there is one: its key, if it is bad.
    fn close(&mut self) -> Result<Option<BadKey>, StatementFault>
        ensures closes { IfOk result (Closes A.good A.key self.old.account self.old.closed self.new.closed) }
        ensures closed { self.new.account ≡ None }
    {
        let Some(account) = self.account.take() else {
            return Ok(None);
        };
        if !account.is_good(self.closed) {
            return Ok(Some(account.bad_key()));
        }
        self.closed = self
            .closed
            .checked_add(1)
            .ok_or(StatementFault::StoreFailed)?;
        Ok(None)
    }

    /// Adds a line that is no head to the open account, where there is one.
    fn add(&mut self, line: &Row) -> Result<(), StatementFault>
        ensures added { OnOk result (self.new.account ≡ option_map (λ a. A.more a line.now) self.old.account) }
        ensures closed { OnOk result (self.new.closed ≡ self.old.closed) }
    {
        if let Some(account) = &mut self.account {
            account.add(line)?;
        }
        Ok(())
    }
}

impl<A: Account> Judge for StretchJudge<A> {
    ghost says = { λ j lines verdict. pass A.begins A.more A.good A.key (take 1) j.account j.closed lines ≡ verdict };

    fn take(&mut self, line: &Row) -> Result<Option<BadKey>, StatementFault> {
        match A::begin(self.alloc, line)? {
            Opening::Head(account) => {
                let found = self.close()?;
                self.account = Some(account);
                Ok(found)
            }
            Opening::Unread => match self.close()? {
                None => Ok(Some(BadKey::Columns(line.copy()?, 1))),
                found => Ok(found),
            },
            Opening::Item => {
                self.add(line)?;
                Ok(None)
            }
        }
    }

    fn end(self) -> Option<BadKey> {
        let StretchJudge {
            alloc: _,
            account,
            closed,
        } = self;
        match account {
            None => None,
            Some(account) => {
                if account.is_good(closed) {
                    None
                } else {
                    Some(account.bad_key())
                }
            }
        }
    }
}
