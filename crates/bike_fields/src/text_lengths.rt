//! How many bytes the texts have.

/// The most bytes of an identifier, which has at least one.
pub const LONGEST_IDENT: usize = 36;

/// The most bytes of a request key, which has at least one.
pub const LONGEST_KEY: usize = 64;

/// The fewest bytes of a language.
pub const SHORTEST_LANGUAGE: usize = 2;

/// The most bytes of a language.
pub const LONGEST_LANGUAGE: usize = 35;

/// The bytes of a currency, no more and no fewer.
pub const CURRENCY_LENGTH: usize = 3;

/// The most bytes of a name or a description, which has at least one.
pub const LONGEST_NAME: usize = 120;

/// The most bytes of an ASCII field, which has at least one.
pub const LONGEST_ASCII: usize = 200;
