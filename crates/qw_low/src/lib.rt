//! Low, a structured language between queries and WebAssembly, whose addresses are parts of the memory and offsets in them.
//!
//! - [`block`]: blocks of steps, and how each statement is composed of its parts.
//! - [`body`]: from steps to a numbered body, in one pass.
//! - [`step`]: the flat steps.
//! - `tee`: where a local is set and then got, one instruction does both.
//! - [`cell`]: the locals of a value.
//! - [`run_laws`]: each open run of the code is the run that Low means, in as many instructions as its count says.
//! - [`begin_laws`]: what is known where a run begins.
//! - [`typing_laws`]: the code is typed by the standard's rules.
//! - [`size_laws`]: how many instructions the code has.
//! - [`block_laws`], [`worked_laws`]: what a block promises; cases with numbers.
//! - `specs/Syntax`, `specs/State`, `specs/Meaning`: the language and what it means.
//! - `specs/Translation`, `specs/Typing`, `specs/Steps`: its code, its types, and its flat steps.
//! - `specs/Places`: when memory stands for a state, and what an outcome says of open runs.
//! - `specs/Begin`: the state in which a run begins.
//! - `specs/Promise`: what a block promises.
#![tactic(auto)]

pub mod begin_laws;
pub mod block;
pub mod block_laws;
pub mod body;
pub mod cell;
pub mod run_laws;
pub mod size_laws;
pub mod step;
mod tee;
pub mod typing_laws;
pub mod worked_laws;
