//! The schema that a text says: [`parse::schema_of`], the tables that it declares; [`worked_laws`]: worked cases.
#![tactic(auto)]

pub mod parse;
pub mod worked_laws;
