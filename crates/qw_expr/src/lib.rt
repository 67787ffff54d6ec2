//! Blocks of typed expressions and conditions (ISO/IEC 9075:1992, 6.11, 8.12).
//!
//! - [`emitter::Emitter`]: what is emitted so far.
//! - [`operand`]: where the value of an expression is.
//! - [`tree`]: whole expressions and conditions, one call each.
//! - [`test`]: whole conditions, for choices that ask only whether they are true.
//! - [`known`]: columns and literals that are in locals.
//! - [`arithmetic`], [`literal`], [`compare`], [`text`], [`truth`]: what is emitted, an operator at a time.
//! - [`worked_laws`]: cases with numbers.
//! - `specs/Cells`: what the locals of a value hold.
//! - `specs/Computes`, `specs/Emits`: what the block of an expression promises, and what emitting it does.
#![tactic(auto)]

pub mod arithmetic;
mod bounds;
mod choice;
pub mod compare;
pub mod emitter;
mod guard;
mod junction;
pub mod known;
pub mod literal;
pub mod operand;
mod plain;
mod search;
pub mod test;
pub mod text;
pub mod tree;
pub mod truth;
pub mod worked_laws;
