//! The meaning of queries as slow programs, which compiled queries are compared with.
//!
//! - [`outcome::plain_outcome`]: what a query comes to over tables; [`outcome::plain_select_outcome`]: what a specification over one table does.
#![tactic(auto)]

mod flow;
mod from;
mod one_table;
pub mod outcome;
mod rows;
