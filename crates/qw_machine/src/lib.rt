//! The machine that executes a module, instruction by instruction.
//!
//! - [`machine::Instance`]: a call of a module's `run`; its `step` is exactly the step of the standard, and its `give` ends one that asks
//!   the host for pages.
//! - [`stepped::Stepped`]: what a step came to.
//! - [`laws`]: calls of valid modules begin typed.
#![tactic(auto)]

mod accesses;
mod activity;
mod blocks;
mod descending;
mod following;
mod hosts;
pub mod laws;
pub mod machine;
mod numbers;
mod operators;
mod room;
mod shape;
mod stack;
pub mod stepped;
mod turns;
