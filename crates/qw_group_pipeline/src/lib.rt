//! The pipeline that begins at a table of groups (ISO/IEC 9075:1992, 7.7 to 7.9), as a block of Low: each group is met once, its key and the values of its
//! set functions come into locals, and a row of the grouped table goes on to HAVING and the select list, as any other.
//!
//! - [`columns`]: where the columns of the grouped table come from.
//! - [`groups`]: what is done at the groups of a table.
//! - [`one`]: what is done where all rows are one group.
//!
//! How the values of set functions are read stands in `value`; keys are read as other entries are (`qw_operator::entry`).
#![tactic(auto)]

pub mod columns;
pub mod groups;
pub mod one;
mod value;
