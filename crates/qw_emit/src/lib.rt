//! The module around a block of Low, which all compiled queries are.
//!
//! - [`module::module_of`]: the module whose function `run` is a block's code.
#![tactic(auto)]

pub mod module;
