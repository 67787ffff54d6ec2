//! Rows in the order of ORDER BY.
//!
//! - [`sort_key::SortKey`]: a result column with a direction.
//! - [`order::order`]: rows sorted by keys.
//! - [`order_laws`]: what holds of sorted rows; [`worked_laws`]: rows sorted by hand.
//!
//! What sorted rows are says `AreSorted` of `specs/Order`.
#![tactic(auto)]

pub mod order;
pub mod order_laws;
pub mod sort_key;
pub mod worked_laws;

pub use sort_key::SortKey;
