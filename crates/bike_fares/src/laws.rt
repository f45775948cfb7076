//! What holds of every fare.

ghost use Rattle.std.specs.Prelude.{◌≡◌, ◌≤ℤ◌, pos, ℕ, true};
ghost use Rattle.bike_catalogue.specs.Rows.{PlanRow, IsPlan};
ghost use Rattle.bike_fares.specs.Pricing.{fare_of, greatest_fare, AreSegments, is_due, IsDue};

/// The law of the greatest fare: no plan asks more than 34,561,800,000 hundredths for a rental, and none pays the
/// rider.
pub fn greatest_fare_law()
    ensures low { (plan : PlanRow) (start end : ℕ) → pos 0 ≤ℤ fare_of plan start end }
    ensures high { (plan : PlanRow) (start end : ℕ) → IsPlan plan → AreSegments plan.segments
        → fare_of plan start end ≤ℤ greatest_fare }
{}

/// The law of a segment's minutes: those at which it charges before its end are its start, and each minute
/// that comes some whole intervals later.
pub fn due_law()
    ensures due { (start interval minute : ℕ) → IsDue start interval minute → is_due start interval minute ≡ true }
    ensures only { (start interval minute : ℕ) → is_due start interval minute ≡ true → IsDue start interval minute }
{}
