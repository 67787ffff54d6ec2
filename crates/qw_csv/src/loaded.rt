//! `Loaded`: the rows of a table, kept column by column.

ghost use Rattle.std.specs.Prelude.{◌≡◌, ◌<◌, ◌↔◌, ℕ, List, [], length, map, IsTrue, IfOk, Some, slice_get};
ghost use Rattle.std.specs.List.{AllByRecursion, AllZip};
ghost use Rattle.qw_types.specs.Kind.{IsRowOf, type_kind};
ghost use Rattle.qw_types.specs.Schema.{AreColumns};
ghost use Rattle.qw_types.specs.Value.{value_of};
ghost use Rattle.qw_types.specs.declared.schema.Column.{Column};
ghost use Rattle.qw_types.specs.declared.schema.ColumnType.{ColumnType};
ghost use Rattle.qw_types.specs.declared.schema.Table.{Table};
ghost use Rattle.qw_types.specs.declared.value.Val.{Val};
ghost use Rattle.qw_types.specs.declared.value.Val.TheVariants.{Num};
ghost use Rattle.qw_types.specs.Contents.{AreLoaded, Contents, IsOfColumnType, column_type};
ghost use Rattle.qw_csv.specs.Cells.{AreCellsFor, values_of};
ghost use Rattle.qw_csv.specs.Contents.{integer_column};
ghost use Rattle.qw_csv.specs.Field.{val_of};
ghost use Rattle.qw_csv.specs.Loading.{Loads};
ghost use Rattle.qw_csv.specs.LoadedColumn.{ColumnContents, columns_of};
ghost use Rattle.qw_csv.specs.Inner.Rows.{AreStored, rows_in};

use crate::cell::Cell;
use crate::column_cells::ColumnCells;
use crate::loaded_column::LoadedColumn;
use crate::storage::Values;
use qw_types::{ColumnType, NoMemory};
use std::alloc::Global;
use std::marker::Model;

/// The rows of a table. Contracts see the types of its columns, and the rows as lists of values.
#[derive(Debug, Drop)]
pub struct Loaded {
    columns: Vec<ColumnType>,
    /// For each column its values.
    values: Vec<Values>,
    len: usize,
}

impl Model for Loaded {
    ghost use Rattle.qw_types.specs.Contents.{Contents};
    ghost use Rattle.qw_csv.specs.Field.{val_of};
    ghost use Rattle.qw_csv.specs.Loading.{Loads};
    ghost use Rattle.qw_csv.specs.Inner.Rows.{AreStored, rows_in};

    ghost Value = { Contents };

    ghost view = { λ a. record { columns = a.columns.items; rows = rows_in a.len a.values.items } };

    ghost invariant = { λ a. AreStored a.len a.columns.items a.values.items };
}

impl Loaded {
    /// Rows that are kept in these values, column by column.
    pub(crate) fn new(columns: Vec<ColumnType>, values: Vec<Values>, len: usize) -> Self
        requires { AreStored len columns.items values.items }
        ensures columns { result.columns ≡ columns.items }
        ensures rows { result.rows ≡ rows_in len values.items }
    {
        Loaded {
            columns,
            values,
            len,
        }
    }

    /// The types of the columns, the values that the rows are kept in, and how many rows there are.
    pub(crate) fn into_parts(self) -> (Vec<ColumnType>, Vec<Values>, usize)
        ensures stored { AreStored result.2 result.0.items result.1.items }
        ensures columns { result.0.items ≡ self.columns }
        ensures rows { rows_in result.2 result.1.items ≡ self.rows }
    {
        (self.columns, self.values, self.len)
    }

    /// The columns one by one, in their order. The values stay where they are kept, so that this takes memory for the list alone.
    ///
    /// # Errors
    ///
    /// [`NoMemory`] where the list doesn't fit memory. The rows are dropped.
    pub fn into_columns(self, alloc: Global) -> Result<Vec<LoadedColumn>, NoMemory>
        ensures { IfOk result (λ columns. columns.items ≡ columns_of self) }
    {
        let (types, values, len) = self.into_parts();
        let mut columns = Vec::with_capacity(alloc, types.len())?;
        for kept in values {
            let column = LoadedColumn::new(types[columns.len()], kept, len);
            columns.push(column)?;
        }
        Ok(columns)
    }

    /// The types of the columns, and which may be null.
    pub fn columns(&self) -> &[ColumnType]
        ensures { result.now ≡ self.now.columns }
    {
        self.columns.as_slice()
    }

    /// How many columns the table has.
    pub fn width(&self) -> usize
        ensures columns { result ≡ length self.now.columns }
        ensures limits { AreLoaded self.now }
    {
        self.columns.len()
    }

    /// How many rows the table has.
    pub fn len(&self) -> usize
        ensures rows { result ≡ length self.now.rows }
        ensures limits { AreLoaded self.now }
    {
        self.len
    }

    /// Whether the table has no row.
    pub fn is_empty(&self) -> bool
        ensures { IsTrue result ↔ (self.now.rows ≡ []) }
    {
        self.len == 0
    }

    /// The value of a column in a row, both counted from 0.
    pub fn cell(&self, row: usize, column: usize) -> Cell<'_>
        requires row { row < length self.now.rows }
        requires column { column < length self.now.columns }
        ensures { value_of self.now.rows row column ≡ Some (val_of result) }
    {
        self.values[column].get(row)
    }

    /// The values of a column, counted from 0, as they are kept. Which of them are null, [`Loaded::cell`] tells.
    pub fn cells(&self, column: usize) -> ColumnCells<'_>
        requires { column < length self.now.columns }
        ensures { (type : ColumnType) → slice_get self.now.columns column ≡ Some type
            → AreCellsFor type.ty result (values_of self.now.rows column) }
    {
        self.values[column].cells()
    }

    /// The value of an INTEGER NOT NULL column in a row, both counted from 0.
    pub fn value(&self, row: usize, column: usize) -> i32
        requires row { row < length self.now.rows }
        requires column { slice_get self.now.columns column ≡ Some integer_column }
        ensures { value_of self.now.rows row column ≡ Some (Num result) }
    {
        self.values[column].integer(row)
    }
}

/// The rows that are loaded of a table's columns are rows of their kinds, as a query's meaning asks of them.
pub fn rows_are_of_their_kinds()
    ensures { (columns : List Column) (contents : Contents) → AreColumns columns → contents.columns ≡ map column_type columns → AreLoaded contents
        → AllByRecursion (IsRowOf (map (λ (c : Column). type_kind c.ty) columns)) contents.rows }
{}

/// The rows that a table's file stands for are rows of the table's columns: a value of each, in their order, which is null only where the
/// column isn't NOT NULL.
pub fn rows_are_of_their_columns()
    ensures { (table : Table) (bytes : List ℕ) (rows : List (List Val)) → Loads table bytes rows
        → AllByRecursion (AllZip IsOfColumnType (map column_type table.columns)) rows }
{}
