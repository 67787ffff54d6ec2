//! Octets tested to be a valid module in the profile (WebAssembly Core Specification 1.0, 3.4 and 5.5.15), with no tree made of them.
//!
//! - [`scan`]: the octets read as a module, and whether it is valid.
//! - `expression`: what follows an expression, of which nothing is kept.
//! - `over`, `outline`: the same of what sections hold, and where in a module they stand.
//! - `body`: whether the octets of a function's body are typed, and otherwise which is the first place refused.
//! - `memories`, `globals`, `exports`: whether these are valid, by their octets.
//! - `tables`: where the types of functions and the exports begin in them, and what else bodies are typed under.
//! - `parts`: whether the parts of a module are valid, bodies apart.
//! - `scope`, `types`, `locals`: what a body is typed under, by where the module's octets say it.
#![tactic(auto)]

mod bodies;
mod body;
mod exports;
mod expression;
mod globals;
mod locals;
mod memories;
mod outline;
mod over;
mod parts;
pub mod scan;
mod scope;
mod stack;
mod tables;
mod types;
