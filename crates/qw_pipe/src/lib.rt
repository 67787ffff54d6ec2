//! Plans in pipelines: each takes the rows of one scan through its steps, into a table that a later one looks up or into the result.
//!
//! - [`pipeline::Pipeline`]: a scan, its [`pipeline::Step`]s and the [`pipeline::Target`] that its rows go to; [`pipeline::Lookup`]: how rows of
//!   a table are looked up.
//! - [`split::split`]: the pipelines of a plan, in the order in which they run. They borrow the plan's conjuncts and items.
//! - [`pipe_laws`]: pipelines come to what their plan does, and take its units; [`worked_laws`]: worked cases.
#![tactic(auto)]

pub mod pipe_laws;
pub mod pipeline;
pub mod split;
pub mod worked_laws;

pub use pipeline::{Lookup, Pipeline, Step, Target};
