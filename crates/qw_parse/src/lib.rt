//! The script that a text says.
//!
//! - [`script::script_of`]: the queries that a text says, one for each statement.
//! - [`fault::ParseFault`]: why a text is no script.
//! - [`laws`]: tokens are one query at most, and worked cases of the grammar.
#![tactic(auto)]

pub mod fault;
pub mod laws;
mod read;
pub mod script;
mod size;
