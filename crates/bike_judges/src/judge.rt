//! What is shown the lines of an answer.

ghost use Rattle.std.specs.Prelude.{◌≡◌, List, [], ◌∷◌, Option, option_map, IfOk};
ghost use Rattle.sqlite_value.specs.Order.{Row};
ghost use Rattle.bike_judges.specs.Judging.{Continues, key_row};

use crate::key::BadKey;
use bike_schema::StatementFault;
use sqlite::Row;

/// A judge is shown the lines of an answer, one after the other, and then their end. It names the first bad key.
pub trait Judge: Drop {
    /// `says judge lines verdict`: where these lines are still to come, that is what the judge is going to find.
    ghost says: { Self → List Row → Option Row → Type 0 };

    /// Shows it the next line. A key that it answers is the first bad one.
    fn take(&mut self, line: &Row) -> Result<Option<BadKey>, StatementFault>
        ensures { (left : List Row) (verdict : Option Row) → says self.old (line.now ∷ left) verdict
            → IfOk result (λ found. Continues says self.new left verdict found) };

    /// Tells it that no line is left.
    fn end(self) -> Option<BadKey>
        ensures { (verdict : Option Row) → says self [] verdict → option_map key_row result ≡ verdict };
}
