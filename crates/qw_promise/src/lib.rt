//! When a module is a compiled form of what a query promises (`specs/Compiled`). No function here computes anything.
//!
//! - [`compiled_laws`]: a compiled module behaves with its layout, and one without an instruction is compiled of nothing that has a row.
//! - [`worked_laws`]: worked cases of the definitions, with numbers.
#![tactic(auto)]

pub mod compiled_laws;
pub mod worked_laws;
