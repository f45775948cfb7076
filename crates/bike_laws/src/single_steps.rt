//! What keeps the operator's stations, names, bicycles, trucks and orders sound; the numbers of a station that are
//! stored, as counts over the operator's records, and how a bicycle that is put somewhere or a dock that is marked
//! changes them.

mod counts;
mod laws;

pub use counts::{docks_law, mark_law, put_law, share_law};
pub use laws::{keeps_bikes, keeps_catalogue, keeps_names, keeps_orders};
