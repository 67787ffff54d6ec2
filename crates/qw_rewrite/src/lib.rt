//! From the plan of a query as it is written to one that is well placed and comes to the same rows and exceptions.
//!
//! - [`rewrite::rewrite`]: each conjunct that may move as low as its columns are, and the keys of joins; [`rewrite::order_joins`]: the order of
//!   the joins, for now that of the text.
//! - [`columns::names_side`]: whether an expression names columns of one side of a join alone.
//! - [`place_laws`]: what holds of the well placed plan of every query; [`worked_laws`]: worked cases. No function there computes anything.
//!
//! A call takes the plan and hands its expressions on as they are; it takes memory for the new steps, and as much time as conjuncts and steps
//! above one another have.
#![tactic(auto)]

pub mod columns;
pub mod order_laws;
pub mod place_laws;
mod probe;
pub mod rewrite;
mod sift;
pub mod worked_laws;

pub use rewrite::order_joins;
