//! The feeds (GBFS v3.0): their trees over the operator, and their texts written part by part.
//!
//! A feed's text depends on the operator, the feed and the moment that is asked for. `write_gbfs` writes a whole feed.
//! Of each other feed `open_list` writes what stands before the elements of its list, `write_type`, `write_station`,
//! `write_status`, `write_plan` or `write_region` an element, and `close_list` what stands behind them. The list of
//! `system_information` is that of its languages: `open_information`, `write_language` and `close_information` write
//! it. `list_text_laws` says that these together are the feed's text. So a caller needs no more than one element at a
//! time, with its further names. Nothing here takes memory.
//!
//! Each function takes the state of the text and the writer beside it, and fails as the calls of `JsonState` do: after
//! a failed write nothing more is written, so what was written is a front of the text.
#![tactic(auto)]

mod feed;
mod frame;
mod gbfs;
mod laws;
mod members;
mod plan;
mod region;
mod station;
mod status;
mod system;
mod vehicle_type;

pub use feed::Feed;
pub use frame::{close_list, open_list};
pub use gbfs::write_gbfs;
pub use laws::{feed_name_laws, further_name_laws, list_text_laws};
pub use plan::write_plan;
pub use region::write_region;
pub use station::write_station;
pub use status::write_status;
pub use system::{close_information, open_information, write_language};
pub use vehicle_type::write_type;
