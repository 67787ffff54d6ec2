//! Input that a seed and a number of rows generate, so that anyone can make the input of a run again.
//!
//! - [`input::generated`]: the schema, the files of its two tables, and the queries.
//! - `draws`: the numbers that a seed gives, one after another.
//! - `sale`: the file of the table whose rows are drawn.
//! - [`worked_laws`]: draws and rows that were worked out by hand.
//!
//! The time grows with the number of rows, and so does the memory: a row of SALE has at most 37 octets.
#![tactic(auto)]

mod draws;
pub mod input;
mod sale;
pub mod worked_laws;

pub use input::{Input, generated};
