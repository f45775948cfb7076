//! What an SQL text means in any schema in which its tables are found by their names: at any place, with any tree
//! number, whatever other tables, indexes and views stand beside them. Lowest layer over the `sqlite` crates. It knows
//! no table of the product.
//!
//! A text's meaning is computed once, under the schema that has its own tables and nothing else; the laws in `laws`
//! carry it to the schema in hand. `find` looks a wanted table up in the schema of an opened database.
//!
//! What a statement does to a keyed table, and what a query of one answers, for any columns and any key.
//!
//! The crate knows no table. `specs/` says what a table's rows are, whatever place the schema gives it, and what a
//! call of one statement tells. `proofs/` has a law for each form of statement, from which a text's meaning is one
//! line, and a law for each kind of call, from which that meaning is the call's whole contract.
//!
//! Queries (`SelectLaws`), in the order of the key unless said otherwise:
//! - the row with a key (`keyed_row`), the last row (`last_row`), all rows (`ordered_rows`), those in a range of the
//!   key (`rows_from_to`), those whose columns equal parameters (`rows_with`), and how many these are (`counted_rows`);
//! - any terms of the rows that pass any tests, with a LIMIT (`rows_passing`, `first_passing`), as equal columns
//!   (`first_with`), or equal ones and NULLs (`rows_with_null`, `first_with_null`);
//! - one LEFT JOIN by a key, or two (`rows_joined`, `rows_joined_twice`);
//! - UNION ALL of two tables, one after the other (`rows_ranked`) or mixed (`rows_merged`), and of three mixed
//!   (`rows_merged_of_three`).
//!
//! Writes (`WriteLaws`, `IndexLaw`), each in a database that obeys its schema:
//! - INSERT of a row, whose key was free (`row_put`);
//! - UPDATE of the row with a key, of all its other columns (`row_replaced`, `number_replaced`) or of some
//!   (`row_updated`);
//! - DELETE of the row with a key (`row_removed`);
//! - CREATE INDEX (`index_made`), which leaves all tables;
//! - DROP TABLE (`table_dropped`), wherever its table stands: the places of those behind it shift, and each is found
//!   again by its name.
//! `DropLaw` also has what stays of names that were free and of foreign keys that no table had; `ExampleDrops` shows a
//! text's own part.
//!
//! `TablesLaw` says what a write to one of several tables makes of all. `CallLaws` gives the contract of a function of
//! one statement, a record of `specs/Calls.antt`: of a read `read_returns` over `lookup::first_row`, of a write
//! `insert_returns` or `write_returns` over `write::run`, of a walk `walk_returns` over the engine's `query`.
//! `ChainLaws` goes on from there, with reads one after another. The riders of `bike_office_reads` are the statements
//! to read first.
#![tactic(auto)]

pub mod find;
pub mod inside;
pub mod laws;
pub mod lookup;
mod same;
pub mod write;
