//! What a host has to know of a compiled statement, as one text in JSON (RFC 8259): the tables, the imports of the module, the columns that it
//! reads, its texts, the columns of its result, and the keys of their order.
//!
//! - [`description::description`]: the text.
//! - `tell`: what can be told in JSON.
//! - `tables`, `reads`, `results`: tables and columns; what a module imports and reads; result columns and keys.
//! - [`worked_laws`]: a small text.
//!
//! What is told is `told` of `specs/Description`. An object's members stand in the order of their keys. The program
//! `qwasm-layout` writes the text, by the call `qwasm_layout` of `qw_top`.
#![tactic(auto)]

pub mod description;
mod reads;
mod results;
mod tables;
mod tell;
pub mod worked_laws;
