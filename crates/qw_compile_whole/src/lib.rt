//! From a query as it is asked, grouped or not, with DISTINCT or without, to its module.
//!
//! - [`front`]: what reaches GROUP BY, as a query of its own.
//! - [`group_columns`]: the columns of the grouped table.
//! - [`behind`]: HAVING and the select list, over the grouped table.
//! - [`whole_texts`]: the text literals of a grouped query.
//! - [`gathering`]: the blocks of a grouped query's pipelines: the scan whose rows go into groups, and the walk over the groups.
//! - `grouped_passes`: what a grouped query's statement is made of: its pipelines, its columns and its texts.
//! - [`statements`] and [`statement_of`]: the steps of a grouped query, its locals and its layout.
//! - `statement_around`: the places that the steps of a grouped query rest on, and what stands around them.
//! - `compile_groups`: all of it, to the module, with DISTINCT or without.
//! - [`entering`]: the blocks with DISTINCT, whose rows go into a second table.
//! - [`compile_whole`]: the public call: a query, grouped or not, to its module.
//! - [`worked_laws`]: worked cases of sizes, texts and columns, counted by hand.
//! - [`distinct_columns`] and [`plain_distinct`]: a query with DISTINCT that isn't grouped, whose rows go into a table over all their columns.
//! - `compile_plain`: a query that isn't grouped, with DISTINCT or without; `finish`: the module around the steps of any of these.
//! - [`taking`]: the blocks without GROUP BY, where all rows are one group.
#![tactic(auto)]

pub mod behind;
mod compile_groups;
mod compile_plain;
pub mod compile_whole;
mod counted;
pub mod distinct_columns;
pub mod entering;
mod finish;
pub mod front;
pub mod gathering;
pub mod group_columns;
mod grouped_passes;
pub mod plain_distinct;
mod statement_around;
pub mod statement_of;
pub mod statements;
pub mod taking;
pub mod whole_texts;
pub mod worked_laws;
