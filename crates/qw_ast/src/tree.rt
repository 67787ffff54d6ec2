//! The code's trees of a schema: table and column definitions.

use qw_types::{Text, Ty};

/// A column of a table definition (ISO/IEC 9075:1992, 11.4).
#[derive(Debug, Drop)]
pub struct ColumnDefinition {
    /// The name as it is kept: a regular identifier in upper case, a delimited one as it is written, without quotes.
    pub name: Text,
    /// The data type; `None` where its sizes are not taken.
    pub ty: Option<Ty>,
    /// Whether NOT NULL stands behind the type.
    pub not_null: bool,
}

/// A table definition (ISO/IEC 9075:1992, 11.3), with any number of columns and any names.
#[derive(Debug, Drop)]
pub struct TableDefinition {
    /// The name as it is kept: a regular identifier in upper case.
    pub name: Text,
    /// The columns, in order.
    pub columns: Vec<ColumnDefinition>,
}
