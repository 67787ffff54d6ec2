//! The meaning of queries with set functions, GROUP BY, HAVING and DISTINCT as a slow program, which compiled queries are compared with.
//!
//! - [`outcome::plain_whole_outcome`]: what a query, grouped or not, comes to over tables. FROM and WHERE are those of `qw_plain`.
#![tactic(auto)]

mod distinct;
mod flow;
mod groups;
mod order;
pub mod outcome;
mod reckon;
mod rows;
