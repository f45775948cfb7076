//! The level of a JSON text that is open.

/// The innermost array or object that isn't ended, with what it has so far, or the text itself.
#[derive(Clone, Copy, Debug, PartialEq, Eq)]
pub enum Level {
    /// The text, before its value.
    Start,
    /// The text, its value ended.
    Done,
    /// An array without an item.
    EmptyArray,
    /// An array with an item.
    FilledArray,
    /// An object without a member.
    EmptyObject,
    /// An object with a member.
    FilledObject,
    /// An object with a name that waits for its value.
    NamedObject,
}
