//! Grouped queries, and what they mean.
//!
//! - [`query::GroupedQuery`]: a typed grouped query, of [`query::GroupedColumn`]s and [`set_function::SetFunction`]s; [`whole::WholeQuery`]: a
//!   query, grouped or not, with DISTINCT or without. What they come to over tables stands in `specs/Groups` and `specs/Whole`.
//! - [`front::front_of`]: what reaches GROUP BY, as a query of its own.
//! - [`group_laws`], [`set_function_laws`]: what holds of groups, of DISTINCT and of set functions; [`worked_laws`]: worked cases, whose outcomes were
//!   found by hand.
#![tactic(auto)]

pub mod front;
pub mod group_laws;
pub mod query;
pub mod set_function;
pub mod set_function_laws;
pub mod whole;
pub mod worked_laws;

pub use query::{GroupedColumn, GroupedQuery};
pub use set_function::{SetFunction, SetFunctionKind};
pub use whole::{Body, WholeQuery};
