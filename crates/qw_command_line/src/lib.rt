//! The words of the command line, read by the crate `clap`.
//!
//! - [`read`]: words, read as one of the program's commands.
//! - [`layout`]: the words of the program `qwasm-layout`, which are those of `compile`.
//! - [`command`]: what words that were read ask for, and why others aren't read.
//! - [`worked_laws`]: words by their reading, worked out.
//! - `program`: the commands that the program has, as `clap` takes them.
#![tactic(auto)]

pub mod command;
pub mod layout;
mod program;
pub mod read;
pub mod worked_laws;
