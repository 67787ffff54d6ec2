//! Where the columns of tables stand.

ghost use Rattle.std.specs.Prelude.{◌≡◌, ◌≤◌, ◌<◌, ◌+◌, ◌^◌, length, map, IfOk, IsSome, Some, slice_get};
ghost use Rattle.qw_types.specs.Contents.{Contents};
ghost use Rattle.qw_types.specs.Limits.{most_tables};
ghost use Rattle.qw_map.specs.Columns as columns;
ghost use Rattle.qw_columns.specs.Mapped.{at_indices};

use crate::room::{column_end, column_type, placed_at};
use qw_csv::Loaded;
use qw_map::layout::{COLUMNS_START, Placed};
use qw_types::{ColumnType, NoMemory};
use std::alloc::Global;
use std::marker::Model;

/// The columns of one table and where they stand, in the order of their declaration.
#[derive(Debug, Drop)]
struct TableMap {
    columns: Vec<ColumnType>,
    placed: Vec<Placed>,
    /// The least multiple of 8 behind all of them.
    end: u64,
}

/// For each table the types of its columns and where they stand in a memory. Contracts see both as lists.
#[derive(Debug, Drop)]
pub struct ColumnMap {
    tables: Vec<TableMap>,
}

impl Model for ColumnMap {
    ghost use Rattle.qw_columns.specs.Inner.Map.{mapped_in};
    ghost use Rattle.qw_columns.specs.Mapped.{Mapped};

    ghost Value = { Mapped };

    ghost view = { λ a. mapped_in a.tables.items };
}

impl ColumnMap {
    /// Where the columns of a table stand, counted from 0.
    pub fn table(&self, table: usize) -> &[Placed]
        requires { table < length self.now.placed }
        ensures { slice_get self.now.placed table ≡ Some result.now }
    {
        self.tables[table].placed.as_slice()
    }

    /// Where a column of a table stands, both counted from 0.
    pub fn placed(&self, table: usize, column: usize) -> Placed
        requires { IsSome (at_indices self.now.placed table column) }
        ensures { at_indices self.now.placed table column ≡ Some result }
    {
        self.tables[table].placed[column]
    }

    /// The type of a column of a table, both counted from 0.
    pub fn column(&self, table: usize, column: usize) -> ColumnType
        requires { IsSome (at_indices self.now.columns table column) }
        ensures { at_indices self.now.columns table column ≡ Some result }
    {
        self.tables[table].columns[column]
    }
}

/// Where the columns of tables stand.
pub(crate) fn map_of(alloc: Global, loaded: &[Loaded]) -> Result<ColumnMap, NoMemory>
    requires { length loaded.now ≤ most_tables }
    ensures placed { IfOk result (λ map. map.placed ≡ columns.map_of loaded.now) }
    ensures columns { IfOk result (λ m. m.columns ≡ map (λ (table : Contents). table.columns) loaded.now) }
{
    let mut tables = Vec::with_capacity(alloc, loaded.len())?;
    let mut at = COLUMNS_START as u64;
    for table in loaded {
        let map = table_map(alloc, table, at)?;
        at = map.end;
        tables.push(map)?;
    }
    Ok(ColumnMap { tables })
}

/// Where the columns of a table stand that begin at an address.
fn table_map(alloc: Global, loaded: &Loaded, at: u64) -> Result<TableMap, NoMemory>
    requires { at ≤ 2 ^ 60 }
    ensures placed { IfOk result (λ table. table.placed.items ≡ columns.placed_columns at loaded.now.columns 0 loaded.now.rows) }
    ensures columns { IfOk result (λ table. table.columns.items ≡ loaded.now.columns) }
    ensures end { IfOk result (λ table. table.end ≡ columns.columns_end at loaded.now.columns 0 loaded.now.rows) }
    ensures limit { IfOk result (λ table. table.end ≤ at + 256_520_000_000) }
{
    let mut columns = Vec::with_capacity(alloc, loaded.width())?;
    let mut placed = Vec::with_capacity(alloc, loaded.width())?;
    let mut end = at;
    for column in 0..loaded.width() {
        let column_type = column_type(loaded, column);
        let one = placed_at(loaded, column, end);
        end = column_end(column_type.not_null, &one);
        columns.push(column_type)?;
        placed.push(one)?;
    }
    Ok(TableMap {
        columns,
        placed,
        end,
    })
}
