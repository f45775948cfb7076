//! The laws of the rules.

ghost use Rattle.bike_readings.specs.Laws.{GoodAreOf, OfAreGood, OfIsReadOff, BadAreOfNone, OneVerdict, StoredInOrder};
ghost use Rattle.bike_readings.specs.Laws.{StoredGood, StoredReadOff, StoredBad};

/// The law of the rules: tables in the order of their keys are those of a sound operator exactly where all their keys
/// are good. Then what is read off them is the operator, and which docks have a row.
pub fn rules_law()
    ensures sound { GoodAreOf }
    ensures complete { OfAreGood }
    ensures read_off { OfIsReadOff }
{}

/// The law of the verdict: where it names a bad key, the tables are those of no operator, and it names no other.
pub fn verdict_law()
    ensures none { BadAreOfNone }
    ensures one { OneVerdict }
{}

/// The verdict over the tables in a database: it stands for an operator exactly where the verdict is that all is good.
pub fn stored_law()
    ensures in_order { StoredInOrder }
    ensures sound { StoredGood }
    ensures read_off { StoredReadOff }
    ensures none { StoredBad }
{}
