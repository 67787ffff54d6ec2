//! Whether octets are a valid module in the profile (WebAssembly Core Specification 1.0, 3.4 and 5.5.15), and the first reason why not.
//!
//! - [`check`]: the test.
//! - [`laws`]: octets have one fault at most, and those of a valid module none.
#![tactic(auto)]

pub mod check;
pub mod laws;
