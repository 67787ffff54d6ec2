//! What texts may say: their trees, and the definitions of their grammar.
//!
//! - [`limits`]: how much may be written.
//! - [`quoted`]: what stands between quotes.
//! - [`tree`]: the names and numbers of a table definition.
//! - [`script`]: the statements of a script, their expressions and conditions.
//! - [`word`]: words in upper or lower case, reserved words.
//! - [`statement`]: the statements of a text, and how deep brackets are nested in them.
//! - [`worked_laws`]: worked cases of the limits.
//! - `specs/Grammar`: the forms, terminal by terminal, and when a text is a statement of a form.
#![tactic(auto)]

pub mod limits;
pub mod quoted;
pub mod script;
pub mod statement;
pub mod tree;
pub mod word;
pub mod worked_laws;
