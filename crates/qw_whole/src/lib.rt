//! What a query promises of its module, grouped or not, with DISTINCT or without (`specs/WholePromises`), and the layout that it has (`specs/Layouts`). No function here
//! computes anything.
//!
//! - [`whole_laws`]: what holds of these bounds.
//! - [`layout_laws`]: what the layout of a query is, and worked cases.
//! - [`plan_laws`]: they are those of the query's plan, stage by stage (`specs/PlanBounds`).
//! - [`table_laws`]: what holds of the tables of groups and of distinct rows while rows come.
//! - [`worked_laws`]: worked cases, with numbers.
#![tactic(auto)]

pub mod layout_laws;
pub mod plan_laws;
pub mod table_laws;
pub mod whole_laws;
pub mod worked_laws;
