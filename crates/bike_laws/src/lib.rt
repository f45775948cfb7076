//! Laws of the operator: of single steps, of lists of requests (soundness, money, retries), and of sessions, in which
//! a program stops anywhere, starts again and goes on.
#![tactic(auto)]

mod laws;
mod retries;
pub mod sessions;
mod single_steps;
mod views;

pub use laws::{
    keeps_ledger, keeps_rentals, keeps_soundness, keeps_soundness_over_lists, money_law,
    money_law_over_lists, no_operator_law, run_law,
};
pub use retries::{kept_law, once_law, retry_law, without_retries_law};
pub use single_steps::{
    docks_law, keeps_bikes, keeps_catalogue, keeps_names, keeps_orders, mark_law, put_law,
    share_law,
};
pub use views::{ledger_room_law, reply_law, view_law};
