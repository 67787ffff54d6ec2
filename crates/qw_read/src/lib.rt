//! Blocks of Low that read the columns of a row into locals.
//!
//! - [`reader`]: a column, and the locals that it is read by and into.
//! - [`begin`]: the addresses of a column's parts, once at the start of a run.
//! - [`read`]: the value of a column at a row.
//! - [`null_test`]: whether one of some columns is null at a row, before they are read.
//! - [`constant`]: a number or a date of the query, once at the start of a run.
//! - [`literal`]: a text of the query, and its address and length, once at the start of a run.
//! - [`ready_laws`]: where a run begins, each value stands where it may be read.
//! - [`worked_laws`]: cases with numbers.
//! - `specs/Reading`: what the blocks promise.
#![tactic(auto)]

pub mod begin;
pub mod constant;
pub mod literal;
pub mod null_test;
pub mod read;
pub mod reader;
pub mod ready_laws;
pub mod worked_laws;
