//! Which typed expressions and conditions can raise an exception at some row, told without a row.
//!
//! - [`raise::magnitude`]: the greatest number that an expression's value may be; [`raise::can_raise`], [`raise::condition_can_raise`]: whether
//!   an expression or a condition can raise. A call walks the tree once and takes no memory.
//! - [`raise_laws`]: what can't raise has a value at every row in range; [`worked_laws`]: worked cases of the definitions.
#![tactic(auto)]

pub mod raise;
pub mod raise_laws;
pub mod worked_laws;
