//! Cases of tests as rows of text, which a program reads from its standard input; what it prints of them is compared with a file by the gate.
//!
//! - [`rows::Row`]: a case, which stands in a line by itself, and what it should come to.
//! - [`tally::Tally`]: how many rows were read, and how many of them came to something else, each of which it prints.
//!
//! A program prints `N rows, 0 differ` where all came to what their rows say, so its file of that line also says how many rows there are.
#![tactic(auto)]

pub mod rows;
pub mod tally;

pub use rows::{Row, row_of};
pub use tally::Tally;
