//! Grammars of octets as data, with what they spell, where they are stuck, and their laws; numbers in LEB128, vectors and
//! names (WebAssembly Core Specification 1.0, 5.1 and 5.2).
//!
//! - [`fault::BinaryFault`]: why octets were not read; [`fault::What`]: what lies outside the profile.
//! - [`numbers`], [`names`], [`vectors`]: numbers, names and vectors at the front of octets; [`windows`]: what has a size.
//! - `specs/Grammar`: grammars, the octets that spell a value, the first construct that no rule allows.
//! - `specs/Reading`: reading by a grammar, which `proofs/GrammarLaws` proves to be the same, of every grammar.
#![tactic(auto)]

pub mod fault;
pub mod names;
pub mod numbers;
pub mod vectors;
pub mod windows;
pub mod write;
