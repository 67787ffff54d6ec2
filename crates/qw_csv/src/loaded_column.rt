//! `LoadedColumn`: one column of loaded rows, by itself.

ghost use Rattle.std.specs.Prelude.{◌≡◌, ◌<◌, Some, length, slice_get};
ghost use Rattle.qw_csv.specs.Cells.{AreCellsFor};
ghost use Rattle.qw_csv.specs.Field.{val_of};
ghost use Rattle.qw_csv.specs.LoadedColumn.{ColumnContents, IsLoadedColumn};
ghost use Rattle.qw_csv.specs.Inner.Rows.{IsStoredColumn};
ghost use Rattle.qw_csv.specs.Inner.Storage.{values_in};

use crate::cell::Cell;
use crate::column_cells::ColumnCells;
use crate::storage::Values;
use qw_types::ColumnType;
use std::marker::Model;

/// One column of loaded rows. Contracts see its type, and its values in the order of the rows.
#[derive(Debug, Drop)]
pub struct LoadedColumn {
    column_type: ColumnType,
    values: Values,
    len: usize,
}

impl Model for LoadedColumn {
    ghost use Rattle.qw_csv.specs.LoadedColumn.{ColumnContents};
    ghost use Rattle.qw_csv.specs.Inner.Rows.{IsStoredColumn};
    ghost use Rattle.qw_csv.specs.Inner.Storage.{values_in};

    ghost Value = { ColumnContents };

    ghost view = { λ a. record { type = a.column_type; values = values_in a.values } };

    ghost invariant = { λ a. IsStoredColumn a.len a.column_type a.values };
}

impl LoadedColumn {
    /// A column of this type that has so many values, which are kept so.
    pub(crate) fn new(column_type: ColumnType, values: Values, len: usize) -> Self
        requires { IsStoredColumn len column_type values }
        ensures { result ≡ record { type = column_type; values = values_in values } }
    {
        LoadedColumn {
            column_type,
            values,
            len,
        }
    }

    /// The type of the column, and whether it may be null.
    pub fn column_type(&self) -> ColumnType
        ensures column_type { result ≡ self.now.type }
        ensures limits { IsLoadedColumn self.now }
    {
        self.column_type
    }

    /// How many rows there are.
    pub fn len(&self) -> usize
        ensures rows { result ≡ length self.now.values }
        ensures limits { IsLoadedColumn self.now }
    {
        self.len
    }

    /// The value of a row, counted from 0.
    pub fn cell(&self, row: usize) -> Cell<'_>
        requires { row < length self.now.values }
        ensures { slice_get self.now.values row ≡ Some (val_of result) }
    {
        self.values.get(row)
    }

    /// All values as they are kept. Which of them are null, [`LoadedColumn::cell`] tells.
    pub fn cells(&self) -> ColumnCells<'_>
        ensures { AreCellsFor self.now.type.ty result self.now.values }
    {
        self.values.cells()
    }
}
