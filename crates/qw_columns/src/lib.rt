//! Loaded tables as columns in the linear memory.
//!
//! - [`columns::place`]: writes the columns of tables of every type; [`room::pages_needed`]: how many pages they take.
//! - [`column_map::ColumnMap`]: where each column stands.
//! - [`reading::value_at`]: the value of a row, read back.
//! - `specs/Mapped`: what the map says, and that a memory is as it says.
#![tactic(auto)]

pub mod column_map;
pub mod columns;
pub mod reading;
pub mod room;
mod writing;

pub use column_map::ColumnMap;
pub use columns::{PlaceFault, place};
pub use reading::value_at;
pub use room::pages_needed;
