//! The leaves of typed expressions and conditions: the columns and the literals that they take.
//!
//! - [`leaf::Leaf`]: a column with its type, a number, a date or a text.
//! - [`gather`]: the leaves of trees, from left to right; [`columns`]: the columns among leaves. A call walks each tree once.
//! - [`laws`]: what holds of all leaves of a tree, and of what it stands for; worked cases.
#![tactic(auto)]

pub mod columns;
pub mod gather;
pub mod laws;
pub mod leaf;
