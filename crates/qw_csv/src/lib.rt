//! The rows of a table's file (RFC 4180), of columns of every type.
//!
//! - [`loading::load`]: the rows that the octets stand for, or the first fault of the file.
//! - [`loading::load_parts`]: the same of a file in parts, and with a text that stands for null.
//! - [`loader::Loader`]: the same of a file that comes in pieces.
//! - [`loaded::Loaded`]: rows in memory, their values by row and column.
//! - [`loaded_column::LoadedColumn`]: one column of them by itself, so that columns can be freed one after another.
//! - [`cell::Cell`]: a value, its text lent; [`cell::CellFault`]: why a field stands for none.
//! - [`field_laws`]: worked cases of fields and records.
//! - [`column_cells::ColumnCells`]: all values of a column, lent as they are kept.
#![tactic(auto)]

pub mod cell;
pub mod column_cells;
pub mod field_laws;
pub mod loaded;
pub mod loaded_column;
pub mod loader;
pub mod loading;
pub mod part_laws;
mod place;
mod storage;
mod wide;

pub use cell::{Cell, CellFault};
pub use column_cells::ColumnCells;
pub use loaded::Loaded;
pub use loaded_column::LoadedColumn;
pub use loader::Loader;
pub use qw_types::ColumnType;
