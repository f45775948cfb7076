//! What the program never calls: records made of plain values, a fare reckoned minute by minute, and JSON that another
//! reader reads back; and a list of requests that is served over a database in memory whose store crashes, where what
//! is left is read. What is expected was worked out by hand or comes from outside.
#![tactic(auto)]

#[cfg(test)]
mod crash;
#[cfg(test)]
mod json;
#[cfg(test)]
mod queries;
#[cfg(test)]
mod records;
