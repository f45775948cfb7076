//! What the lines of a history are read as.

ghost use Rattle.std.specs.Prelude.{◌-◌, ℕ, Some, drop, map};
ghost use Rattle.bike_stream.specs.Lines.{lines_of};
ghost use Rattle.bike_operator.specs.Operator.{Operator};
ghost use Rattle.bike_operator.specs.Sound.{IsSound};
ghost use Rattle.bike_laws.specs.History.{calls_of};
ghost use Rattle.bike_batch.specs.Again.{history_text};
ghost use Rattle.bike_batch.specs.Answers.{AreReadAs};

/// The law of history lines: what `write_history` writes behind a number is, line by line, read by `run_lines` as the
/// requests that were accepted behind it, each at the operator's moment after it.
pub fn history_lines_law()
    ensures { (s : Operator) (number : ℕ) → IsSound s
        → AreReadAs (lines_of (history_text s number))
        (map Some (calls_of (drop (number - s.history.archived) s.history.items))) }
{}
