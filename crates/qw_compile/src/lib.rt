//! From a typed query to its module: the passes of a query one after another.
//!
//! - [`compile`]: all of them, in their order.
//! - [`passes`]: from a query, by its plan, to its physical pipelines.
//! - [`used`]: the columns of tables that it reads; [`written_texts`]: its text literals.
//! - [`query_leaves`]: the columns and the literals of pipelines.
//! - [`texts`], [`constants`]: the literals, and the locals for them; [`query_locals`]: all locals of a query.
//! - [`bindings`]: what is known where expressions are evaluated.
//! - [`courses`]: the blocks of pipelines, one pipeline after another.
//! - [`query_statement`]: the steps of a query, its locals and its layout.
//! - [`planned_laws`]: the bounds of queries, which their plans tell.
#![tactic(auto)]

pub mod bindings;
pub mod compile;
pub mod constants;
pub mod courses;
pub mod passes;
pub mod planned_laws;
pub mod query_leaves;
pub mod query_locals;
pub mod query_statement;
pub mod texts;
pub mod used;
pub mod written_texts;
