//! Modules in the binary format (WebAssembly Core Specification 1.0, 5), as far as the profile goes: no floating point, tables,
//! indirect calls, start, elements, data; of imports only the memory and the functions `raise` and `pages` of `q`.
//!
//! - [`decode::decode`]: the module that octets spell, or the first construct from the left that no rule allows.
//! - [`encode::encode`]: octets that spell a module.
//! - [`laws`]: octets spell at most one module, have at most one first fault, and never both; bodies are numbered; which modules have a
//!   spelling, and of how many octets.
//! - [`worked_laws`]: what sequences are numbered by, what fits, and how many octets are needed, in numbers.
//! - `specs/Modules`: the octets that spell a module; `Sections`, `Instructions`, `Types`: the constructs, in the order of the
//!   standard's chapter; `Contents`: what a module holds, without where it lies in memory; `Sizes`: how many octets
//!   constructs need at most.
#![tactic(auto)]

pub mod decode;
pub mod encode;
pub mod laws;
pub mod read;
pub mod worked_laws;
mod write;
