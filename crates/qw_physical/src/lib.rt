//! Pipelines as they are emitted, what their rows come to by tables of keys and kept columns, and what that takes.
//!
//! - [`pipeline`]: a pipeline, its operators and its sink.
//! - [`read::named_columns`] and [`read::read_columns`]: the columns that a query reads.
//! - [`spell::spell`]: the pipelines of a plan with their keys and kept columns spelled out.
//! - [`spell_laws`]: the pipelines of a query can be spelled out; a worked case.
//! - [`course_laws`], [`worked_laws`]: what the pipelines of every query come to, and a worked case.
//! - [`bound_laws`]: what they take, in units and in octets.
#![tactic(auto)]

pub mod bound_laws;
pub mod course_laws;
mod named;
pub mod pipeline;
pub mod read;
pub mod spell;
pub mod spell_laws;
pub mod worked_laws;

pub use pipeline::{Build, Operator, Pipeline, Probe, ReadColumn, Sink};
