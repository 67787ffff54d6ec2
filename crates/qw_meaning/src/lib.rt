//! Typed query specifications, and what they mean.
//!
//! - [`query::Query`]: a typed query specification; [`select::Select`]: one over one table. What they come to over tables stands in
//!   `specs/Outcome`.
//! - [`from_laws`], [`outcome_laws`], [`select_laws`], [`same_laws`]: what holds of every clause, specification and outcome, and worked cases;
//!   [`worked_laws`]: worked cases of whole specifications.
#![tactic(auto)]

pub mod from_laws;
pub mod outcome_laws;
pub mod query;
pub mod same_laws;
pub mod select;
pub mod select_laws;
pub mod worked_laws;

pub use query::Query;
pub use select::Select;
