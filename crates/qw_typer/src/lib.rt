//! What the queries of a script mean over a schema, and the faults of those that mean nothing.
//!
//! - [`script::type_script`]: what a script's queries mean, with the names of their result columns and the keys of their order, or
//!   the first fault.
//! - [`query::TypedQuery`]: what a query means, the names of its result columns and the keys by which its rows are sorted.
//! - [`fault::TypeFault`]: why a script means nothing.
//! - [`laws`]: a query means something exactly where it has no fault; that is typed; worked cases.
//! - [`group_laws`]: worked cases of names and set functions over a grouped table.
//! - [`pattern_laws`]: worked cases of LIKE.
#![tactic(auto)]

mod branch;
mod construct;
mod date;
mod entries;
mod expression;
pub mod fault;
mod functions;
pub mod group_laws;
mod grouped;
pub mod grouped_laws;
mod grouping;
mod key;
mod kinds;
pub mod laws;
mod leaf;
mod name;
mod number;
pub mod pattern_laws;
pub mod query;
mod refusal;
mod scope;
pub mod script;
mod set_function;
mod sources;
mod starred;
mod statement;
mod tree;
