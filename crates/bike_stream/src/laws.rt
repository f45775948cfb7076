//! What taking a text apart into lines means.

ghost use Rattle.std.specs.Prelude.{◌≡◌, ◌<◌, ℕ, List, [], ◌∷◌, ◌++◌, All, length};
ghost use Rattle.std.specs.Io.BufRead.{drop_through};
ghost use Rattle.bike_stream.specs.Lines.{lines_of, first_line, has_feed, lines_text, IsFree};

/// The lines of a text are the texts without a line feed of which it is joined, each with a line feed at
/// its end, the last one with or without; and one line after the other is taken off its front.
pub fn line_laws()
    ensures ended { (lines : List (List ℕ)) → All IsFree lines → lines_of (lines_text lines) ≡ lines }
    ensures last { (lines : List (List ℕ)) (end : List ℕ) → All IsFree lines → IsFree end → 0 < length end
        → lines_of (lines_text lines ++ end) ≡ lines ++ end ∷ [] }
    ensures next { (text : List ℕ) → 0 < length text
        → lines_of text ≡ first_line text ∷ lines_of (drop_through 10 text) }
{}
