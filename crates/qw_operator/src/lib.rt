//! The rows of pipelines as blocks of Low: conjuncts, lookups and what takes the rows, one within another (Neumann, VLDB 2011).
//!
//! - [`row`]: what is done at a row of a scan.
//! - [`guard`], [`strict`]: the test of null bits before the first conjunct, and which columns it may test.
//! - [`operators`]: the filters and the lookups of a pipeline, each within the one before.
//! - [`end`]: what is innermost: a sink takes a row, or it is put into a group.
//! - [`sink`]: a row is entered into a table, or becomes a row of the result.
//! - [`group`], [`put`]: a table of groups or the one group of all rows, and how a row is put into it.
//! - [`cells`]: the cells of a result row.
//! - [`lists`]: conjuncts and expressions, one after another.
//! - [`needed`]: how many columns are read where an expression is evaluated.
//! - [`nesting`]: what is done where a conjunct is true stands within its choice.
//! - [`lookup`]: a table is looked up, and at each entry that has the key the columns that it keeps are known.
//! - [`outer`]: the same of a LEFT JOIN, where a row goes on alone that no entry passes with.
//! - [`entry`]: the columns that a table's entries keep are read.
//! - [`worked_laws`]: worked cases of what is innermost.
//! - [`fields`], [`locals`]: where the fields of keys and of entries are, and which locals are declared.
#![tactic(auto)]

pub mod cells;
pub mod end;
pub mod entry;
pub mod fields;
pub mod group;
mod guard;
pub mod lists;
pub mod locals;
pub mod lookup;
pub mod needed;
pub mod nesting;
pub mod operators;
pub mod outer;
pub mod put;
pub mod row;
pub mod sink;
mod strict;
pub mod worked_laws;
