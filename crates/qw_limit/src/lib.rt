//! No more rows are taken than a local counts down from (`specs/Counting`, `specs/Limited`), and a run that left some of them out is long: as long as
//! what was counted. No function here computes anything.
//!
//! - [`worked_laws`]: worked cases, with numbers.
#![tactic(auto)]

pub mod worked_laws;
