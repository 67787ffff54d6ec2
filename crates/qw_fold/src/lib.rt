//! Query specifications that mean the same as others, with less left to compute at each row.
//!
//! - [`fold::fold`]: operations on literals are done, and literals stand at the scale of the numbers beside them.
//! - [`tree`]: the same of one expression or condition.
//! - [`worked_laws`]: worked cases of the definitions.
#![tactic(auto)]

mod construct;
pub mod fold;
mod literal;
mod operation;
pub mod tree;
pub mod worked_laws;
