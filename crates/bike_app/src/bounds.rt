//! The numbers of the bounds of command lines that contracts name. A constant of another number is refused here.

ghost use Rattle.std.specs.Prelude.{◌≡◌};
ghost use Rattle.bike_command_line.specs.declared.task.TheConstants.{GREATEST_AFTER, MOST_CONNECTIONS};

/// After how many connections `serve` ends at most, where that is asked, and the greatest number behind which the
/// history is asked for.
pub fn word_bounds()
    ensures connections { MOST_CONNECTIONS ≡ 1000000000 }
    ensures after { GREATEST_AFTER ≡ 9223372036854775807 }
{}
