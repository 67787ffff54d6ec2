//! Want of memory as an error.
#![tactic(auto)]

pub mod memory;

pub use memory::NoMemory;
