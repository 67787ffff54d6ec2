//! Whether a module is valid (WebAssembly Core Specification 1.0, 3).
//!
//! - [`valid::validate`]: the valid module, or the first part or place that is refused. Only a valid module can be executed.
//! - [`imports`]: what a module imports; [`initial`]: the constant that a global begins with.
//! - [`heights`]: how many operands and labels a function's code needs at most; [`worked_laws`]: worked cases of these.
#![tactic(auto)]

pub mod checker;
pub mod heights;
pub mod imports;
pub mod initial;
pub mod locals;
mod names;
pub mod operands;
pub mod valid;
pub mod walk;
pub mod worked_laws;
