ghost use Rattle.std.specs.Prelude.{◌≡◌};
ghost use Rattle.qw_types.specs.Schema.{AreColumns, AreTables};

use crate::text::Text;
use crate::value::Ty;
use std::marker::Model;

/// The most columns of a table.
pub const MAX_COLUMNS: usize = 64;

/// The most tables of a schema.
pub const MAX_TABLES: usize = 32;

/// The most data rows of a table.
pub const MAX_ROWS: usize = 1_000_000;

/// A column as it is declared (ISO/IEC 9075:1992, 11.4 "column definition").
#[derive(Debug, Drop)]
pub struct Column {
    /// The name as it is kept: a regular identifier in upper case, a delimited one as it is written, without its quotes.
    pub name: Text,
    /// The declared data type.
    pub ty: Ty,
    /// Whether the column is declared NOT NULL.
    pub not_null: bool,
}

/// What a column is but for its name: its values are of this type, or null where they may be (ISO/IEC 9075:1992, 11.4).
#[derive(Clone, Copy, Debug, PartialEq, Eq)]
pub struct ColumnType {
    pub ty: Ty,
    pub not_null: bool,
}

/// A table as it is declared (ISO/IEC 9075:1992, 11.3 "table definition").
#[derive(Debug, Drop)]
pub struct Table {
    /// The name as it is kept: a regular identifier in upper case.
    pub name: Text,
    /// The declared columns, in order.
    pub columns: Columns,
}

/// The columns of a table, in order: from 1 to [`MAX_COLUMNS`], no two of one name, each of a type of a size that it may have.
#[derive(Debug, Drop)]
pub struct Columns {
    columns: Vec<Column>,
}

impl Model for Columns {
    ghost use Rattle.std.specs.Prelude.{List};
    ghost use Rattle.qw_types.specs.declared.schema.Column.{Column};

    ghost Value = { List Column };

    ghost use Rattle.qw_types.specs.Schema.{AreColumns};

    ghost view = { λ a. a.columns.items };

    ghost invariant = { λ a. AreColumns a.columns.items };
}

impl Columns {
    /// Takes the columns as they are. That they keep the limits ([`MAX_COLUMNS`] and the sizes of types) and that
    /// their names differ is not tested here: the caller knows it.
    pub fn new(columns: Vec<Column>) -> Self
        requires { AreColumns columns.items }
        ensures { result ≡ columns.items }
    {
        Columns { columns }
    }

    /// The columns, in the order of their declaration.
    pub fn as_slice(&self) -> &[Column]
        ensures same { result.now ≡ self.now }
        ensures limits { AreColumns self.now }
    {
        self.columns.as_slice()
    }
}

/// The tables of a schema, in order: from 1 to [`MAX_TABLES`], no two of one name.
#[derive(Debug, Drop)]
pub struct Schema {
    tables: Vec<Table>,
}

impl Model for Schema {
    ghost use Rattle.std.specs.Prelude.{List};
    ghost use Rattle.qw_types.specs.declared.schema.Table.{Table};

    ghost Value = { List Table };

    ghost use Rattle.qw_types.specs.Schema.{AreTables};

    ghost view = { λ a. a.tables.items };

    ghost invariant = { λ a. AreTables a.tables.items };
}

impl Schema {
    /// Takes the tables as they are. That they keep the limits ([`MAX_TABLES`]) and that their names
    /// differ is not tested here: the caller knows it.
    pub fn new(tables: Vec<Table>) -> Self
        requires { AreTables tables.items }
        ensures { result ≡ tables.items }
    {
        Schema { tables }
    }

    /// The tables, in the order of their declaration.
    pub fn as_slice(&self) -> &[Table]
        ensures same { result.now ≡ self.now }
        ensures limits { AreTables self.now }
    {
        self.tables.as_slice()
    }
}
