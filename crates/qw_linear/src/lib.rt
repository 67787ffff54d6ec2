//! A linear memory (WebAssembly Core Specification 1.0, 4.2.8), which every other crate sees as a list of
//! octets and a reservation.
//!
//! - [`linear::Linear`]: the memory. Only `new` takes memory of the system; it reserves all that `grow`
//!   may ask for.
//! - [`worked_laws`]: worked cases of the definitions, with numbers.
//! - `specs/Linear`: its octets and its reservation, and what is so of every memory.
//! - `specs/Memory`: the number at an address, the memory with a number put at an address, a memory that
//!   grew, and one of which pages were cleared.
//! - `proofs/MemoryFacts`: the laws of numbers in memory; `AccessFacts`: of loads and stores;
//!   `GrowthFacts`: of growth; `ClearedFacts`: of clearing.
//! - `proofs/StoreFacts`: the octets that the processor reads and writes stand for these numbers.
#![tactic(auto)]

pub mod linear;
pub mod worked_laws;

pub use linear::Linear;
