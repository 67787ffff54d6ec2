//! The tokens of a text (ISO/IEC 9075:1992, 5.2).
//!
//! - [`token::tokens`]: the tokens, or the octet where none begins.
//! - [`worked_laws`]: worked cases of the definitions.
#![tactic(auto)]

pub mod token;
pub mod worked_laws;
