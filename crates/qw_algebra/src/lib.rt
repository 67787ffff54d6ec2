//! Plans of queries: by which steps the rows of a query are made.
//!
//! - [`plan::Plan`]: a plan, a tree of scans, filters, joins and a select list; [`plan::Side`]: a side of a join.
//! - [`written::plan_of`]: the plan of a query as it is written.
//! - [`plan_laws`]: what holds of the plan of every query; [`worked_laws`]: worked cases. No function there computes anything.
//!
//! What a plan means is in `specs/Node`: a flow of rows and exceptions over tables, as a query has one.
#![tactic(auto)]

pub mod plan;
pub mod plan_laws;
pub mod worked_laws;
pub mod written;

pub use plan::{Plan, Side};
pub use written::plan_of;
