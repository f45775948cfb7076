//! The audit's queries, and the judges of their lines.
//!
//! `specs/Lines` gives the lines of each query as a list over the tables; the query's text answers those and nothing
//! else. `judge_lines` shows them to a `Judge`, one at a time, until it names the first bad key; `fold_lines` computes
//! over them. Two judges make one pass: a `LineJudge` names the key of the first line that fails its test; a
//! `StretchJudge` opens an account at each head, adds the lines after it, and names the key of the first head whose
//! account isn't good. The lemmas `lines_verdict`, `merged_verdict`, `merged_of_three_verdict` and `least_verdict` say
//! what that is over tables: the least key of which a demand fails. `specs/Verdicts` says what the rules of a table
//! answer. `find_now` looks up the operator's moment, `find_archived` how much was archived; `is_sum_of` tells whether
//! so many entries can come to a sum.
#![tactic(auto)]

mod archived;
mod fold;
mod judge;
mod key;
mod lesser;
mod line_judge;
mod lines;
mod moment;
mod pass;
mod query;
mod stretch;
mod sum;
mod text;

pub use archived::find_archived;
pub use fold::{LineFold, fold_lines};
pub use judge::Judge;
pub use key::BadKey;
pub use lesser::least;
pub use line_judge::LineJudge;
pub use lines::judge_lines;
pub use moment::find_now;
pub use pass::{Account, LineTest, Opening};
pub use query::Query;
pub use stretch::StretchJudge;
pub use sum::is_sum_of;
