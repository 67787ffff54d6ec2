//! From the result rows in memory to the text of the report.
//!
//! - [`received::with_rows`]: the result rows of an instance that is done, as its part of the report.
//! - [`ordered::with_ordered_rows`]: the same in the order of ORDER BY.
//! - [`sink`]: the header of rows, and the other parts of the report.
//! - [`results::received`]: the result rows of an instance that is done, as values.
//! - [`worked_laws`]: what is printed of given values.
#![tactic(auto)]

mod cells;
mod lines;
pub mod ordered;
pub mod received;
pub mod results;
pub mod sink;
pub mod worked_laws;
