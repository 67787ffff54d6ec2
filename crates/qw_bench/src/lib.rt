//! Instances of modules over one linear memory, and their turns.
//!
//! - [`bench::Bench`]: the memory with its columns and instances; a turn is exactly the turn of `qw_map`'s definitions.
//! - [`first_page`]: the descriptor, on an instance's first page.
//! - [`bench_laws`]: what holds of instances after any turns.
//! - [`worked_laws`]: cases with numbers.
#![tactic(auto)]

pub mod bench;
pub mod bench_laws;
pub mod first_page;
mod free;
mod pool;
pub mod worked_laws;
