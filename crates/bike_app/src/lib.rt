//! The tasks of the program's words over a database: it is taken into service, and then request lines are served, a
//! feed, a day's table or the history is written, or an import is taken in; or it is raised to the newest version.
//! `run_lines` of `bike_batch` is passed on as a part of this surface, and of `bike_console` what a program ends and
//! shows by.
#![tactic(auto)]

mod bounds;
mod day;
mod feed;
mod file;
mod history;
mod import;
mod program;
mod raise;
mod words;

pub use bike_batch::{LinesFault, run_lines};
pub use bike_console::{CountingReader, Fault, Progress, exit_code};
pub use bounds::word_bounds;
pub use day::report_day;
pub use feed::publish;
pub use file::{run_file, run_on_file};
pub use history::report_history;
pub use import::import_from;
pub use program::serve;
pub use raise::raise_up;
pub use words::{run_words, run_words_in_memory};
