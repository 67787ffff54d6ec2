//! Typed expressions and conditions, and what they mean at a row.
//!
//! - [`expression::Expr`], [`expression::Cond`]: typed expressions and conditions; [`comparison::Comparison`]: the six comparisons and
//!   LIKE; [`kind::of_expression`]: of which kind an expression's values are; [`value::Value`]: such a value, which borrows its text.
//! - [`evaluate`]: values, truth and exceptions at a row, without memory; [`conjuncts::pass`]: whether a row passes a WHERE.
//! - [`copy`]: copies of trees.
//! - [`typing_laws`], [`evaluation_laws`], [`units_laws`], [`closed_laws`]: what holds of every expression and condition, and worked cases.
#![tactic(auto)]

pub mod closed_laws;
pub mod comparison;
pub mod conjuncts;
pub mod copy;
pub mod evaluate;
pub mod evaluation_laws;
pub mod expression;
pub mod kind;
pub mod typing_laws;
pub mod units_laws;
pub mod value;
