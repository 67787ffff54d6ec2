//! WebAssembly Core Specification 1.0 without floating point, tables and indirect calls: the syntax of modules, and the
//! definitions of validity, execution and runs (in `specs/`) with their laws.
//!
//! - [`instruction::Instr`]: an instruction of a numbered body; [`instruction::Op`]: one that holds no other.
//! - [`module::Module`]: a module, with its [`module::Function`]s and their [`module::Body`]s.
//! - [`trap::Trap`]: why an instruction traps.
//! - [`laws`]: the rules and the computed step agree, a step is unique, typed configurations go on.
//! - [`worked_laws`]: the definitions on given numbers, types and limits.
//! - `specs/Syntax`: the nested code that a numbered body stands for; `Numbers`: the values and operators.
//! - `specs/Typing`: the typing rules; `Validity`: valid modules, and the shape of those that are executed.
//! - `specs/Execution`: the rules of execution; `Step`: the step as a function; `Start`: how a call begins.
//! - `specs/Soundness`: typed configurations; `Places`: where in a body a typing rule first fails.
//! - `specs/Form`: codes that never ask for the memory's size, and how deep calls nest; `Offsets`: offsets of 32 bits;
//!   `Numbering`: which numbers the sequences of a body get where their ends are read.
#![tactic(auto)]

pub mod instruction;
pub mod laws;
pub mod module;
pub mod trap;
pub mod worked_laws;
