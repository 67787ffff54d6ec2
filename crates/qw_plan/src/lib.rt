//! Plans of whole queries, and their pipelines: definitions and laws, no code.
//!
//! - `specs/Stages`: a query as a query specification and the stages behind it: groups, HAVING with the select list, distinct rows.
//! - `specs/Plan`, `specs/Placed`: the plan of a query, as it is written and well placed. `specs/Widths`: how wide its rows are.
//! - `specs/Pipes`: the pipelines of a plan, and a run of them that ends with the first that raises.
//! - [`plan_laws`]: all of these come to what the query means; [`worked_laws`]: worked cases.
#![tactic(auto)]

pub mod plan_laws;
pub mod worked_laws;
