//! Names of members that are known beforehand.

ghost use Rattle.std.specs.Prelude.{◌≡◌, IsTrue};
ghost use Rattle.bike_json.specs.Names.{is_plain, text_behind_comma};

/// A member's name no byte of which needs an escape, with its text: so it is written at once, and nothing of it is
/// tested while it is. `member!` makes one of a literal.
#[derive(Clone, Copy, Debug)]
pub struct MemberName {
    /// The name alone.
    pub plain: &'static str,
    /// A comma, the name between quotation marks, and a colon.
    pub text: &'static str,
    ghost needs_no_escape: { IsTrue (is_plain plain.now) },
    ghost is_text: { text.now ≡ text_behind_comma plain.now },
}

/// The name of a member that is this literal.
#[macro_export]
macro_rules! member {
    ($name:literal) => {
        $crate::MemberName {
            plain: $name,
            text: concat!(",\"", $name, "\":"),
        }
    };
}
