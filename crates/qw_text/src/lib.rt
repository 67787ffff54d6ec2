//! Blocks of Low that compare two texts by their octets (ISO/IEC 9075:1992, 8.2), match one with a pattern (8.5), or fold one into a hash,
//! each text by the locals of its address and its length.
//!
//! - [`equality`]: whether two texts are the same.
//! - [`order`]: which of two texts comes first.
//! - [`like`]: whether a text matches a pattern.
//! - [`hash`]: the octets of a text, folded into the hash of a key.
//! - [`worked_laws`]: cases with numbers.
//! - `specs/Texts`, `specs/Likes`: what the blocks promise.
#![tactic(auto)]

pub mod equality;
pub mod hash;
pub mod like;
pub mod order;
mod walk;
pub mod worked_laws;
