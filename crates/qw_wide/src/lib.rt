//! Blocks of exact arithmetic and comparison within 64 bits: numbers of at most 18 digits, with scales, in locals of type i64.
//!
//! - [`arithmetic`]: sums, differences, products, quotients, opposites, and a number at another scale (ISO/IEC 9075:1992, 6.12).
//! - [`order`]: how numbers of unlike scales compare (8.2).
//! - `specs/Numbers`: what the blocks promise.
#![tactic(auto)]

pub mod arithmetic;
pub mod order;
