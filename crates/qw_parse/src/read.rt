//! A query, read from left to right.

mod call;
mod case;
mod condition;
mod date;
mod group;
mod order;
mod parser;
mod primary;
mod rank;
mod rules;
mod select;
mod terminal;
mod tree;

pub(crate) use parser::Stop;
pub(crate) use select::query;
pub(crate) use tree::push;
