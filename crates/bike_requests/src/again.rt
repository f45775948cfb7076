//! The law of request lines.

ghost use Rattle.std.specs.Prelude.{◌≤◌, ℕ};
ghost use Rattle.bike_fixed.specs.Whole.{last_moment};
ghost use Rattle.bike_commands.specs.declared.request.Request.{Request};
ghost use Rattle.bike_commands.specs.Requests.{IsRequest, IsLine};
ghost use Rattle.bike_requests.specs.Lines.{HasNoFeed, line_text};

/// The law of lines: every request of the program, at a moment up to the last one, is spelled by the line that is
/// written for it, which is no longer than `LINE_LENGTH`, is UTF-8 and has no line feed in it. So `read_line` reads it
/// back, and it stands as one line among others.
pub fn line_again_law()
    ensures spelled { (t : ℕ) (q : Request) → t ≤ last_moment → IsRequest q → IsLine (line_text t q) t q }
    ensures unbroken { (t : ℕ) (q : Request) → t ≤ last_moment → IsRequest q → HasNoFeed (line_text t q) }
{}
