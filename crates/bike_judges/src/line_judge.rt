//! Each line by itself.

ghost use Rattle.std.specs.Prelude.{◌≡◌, List, Option, IfOk, option_map, [], ◌∷◌};
ghost use Rattle.sqlite_value.specs.Order.{Row};
ghost use Rattle.bike_judges.specs.Judging.{Continues, key_row};
ghost use Rattle.bike_judges.specs.Passes.{first_failing};

use crate::judge::Judge;
use crate::key::BadKey;
use crate::pass::LineTest;
use bike_schema::StatementFault;
use sqlite::Row;

/// A judge of each line by itself.
#[derive(Drop)]
pub struct LineJudge<T> {
    /// What each line is asked.
    pub test: T,
    /// How many lines were good so far.
    pub before: u64,
}

impl<T: LineTest> LineJudge<T> {
    /// Before the first line.
    pub fn new(test: T) -> LineJudge<T>
        ensures test { result.test ≡ test }
        ensures before { result.before ≡ 0 }
        ensures says { (lines : List Row) (verdict : Option Row)
            → first_failing (T.test test) (T.key test) 0 lines ≡ verdict
            → first_failing (T.test result.test) (T.key result.test) result.before lines ≡ verdict }
    {
        LineJudge { test, before: 0 }
    }
}

impl<T: LineTest> Judge for LineJudge<T> {
    ghost says = { λ j lines verdict. first_failing (T.test j.test) (T.key j.test) j.before lines ≡ verdict };

    fn take(&mut self, line: &Row) -> Result<Option<BadKey>, StatementFault> {
        if !self.test.is_good(self.before, line)? {
            return Ok(Some(self.test.bad_key(line)?));
        }
        self.before = self
            .before
            .checked_add(1)
            .ok_or(StatementFault::StoreFailed)?;
        Ok(None)
    }

    fn end(self) -> Option<BadKey> {
        None
    }
}
