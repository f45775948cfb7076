//! Whether the tables of a database are the product's.
//!
//! Of a database that an earlier run left, or a stranger, nothing is known at first. `recognise` tells what it is, by
//! tests in the order of `specs/Recognition`; the first of them change nothing and read no row but that of `meta`. A
//! table stands where its name finds exactly its columns and keys, no foreign key refers to it, and one pass over its
//! rowids finds them to be numbers and apart: the engine keeps its key, and then every law of the tables holds of it.
#![tactic(auto)]

mod added;
mod recognition;
mod rowids;
mod schema;
mod stands;
mod table;
mod version;

pub use added::has_added_unique;
pub use recognition::{Recognition, recognise, recognise_tables};
pub use rowids::are_apart;
pub use schema::has_wanted;
pub use stands::{EVERY_TABLE, check_open, missing_table, table_stands};
pub use table::TableName;
pub use version::{MetaVersion, find_version};

mod earlier_versions;

pub use earlier_versions::{
    Earlier, Found, MOST_DOCKS_BEFORE, find_version_of, is_at, kept_lies, stands_at,
};
