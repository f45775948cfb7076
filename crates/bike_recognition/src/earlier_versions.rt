//! Earlier versions of the schema: how a database holds an operator's tables at each, and which version one is of.
//!
//! There is one operator and one family of tables. A version is a way in which a database holds them: the first has no
//! regions and no further names, the second no further names, and both have stations of at most 200 docks. The first
//! three have their stations in tables of other names, and a table `counts` of the bicycles there by type. They have
//! their riders in a table `riders`, without plans of their own, and the accepted requests in a table `kept`, which
//! tells no moments and no order but that of its rowids. Nothing of them was archived.

mod earlier;
mod found;
mod kept;
mod old_table;
mod stands;

pub use earlier::{Earlier, MOST_DOCKS_BEFORE};
pub use found::{Found, find_version_of};
pub use kept::kept_lies;
pub use stands::{is_at, stands_at};
