//! Where the columns begin, and where the parts of an instance's descriptor and of its result rows stand.

ghost use Rattle.std.specs.Prelude.{◌≡◌, ◌≤◌, ◌<◌, ◌^◌, length};
ghost use Rattle.qw_types.specs.Limits.{most_cells};
ghost use Rattle.qw_linear.specs.Memory.{page};
ghost use Rattle.qw_map.specs.Layout as layout;

use qw_types::{Kind, Ty};
use std::marker::Model;

/// Where the columns begin. The octets before belong to nobody.
pub const COLUMNS_START: usize = 64;

/// Every part of a column begins at a multiple of this.
pub const COLUMN_ALIGNMENT: usize = 8;

/// Octets of a descriptor before its columns' entries.
pub const HEAD_SIZE: u32 = 64;

/// Octets of a column's entry.
pub const ENTRY_SIZE: u32 = 16;

/// The first free address.
pub const FREE_OFFSET: u32 = 0;

/// The end of the present page.
pub const PAGE_END_OFFSET: u32 = 4;

/// The address of the first result row, or 0 where there is none.
pub const FIRST_ROW_OFFSET: u32 = 8;

/// The address of the last result row, or 0 where there is none.
pub const LAST_ROW_OFFSET: u32 = 12;

/// The number of result rows, of eight octets.
pub const COUNT_OFFSET: u32 = 16;

/// In a column's entry, behind the address of its values: the address of its null bits, or 0 where it has none.
pub const ENTRY_NULLS_OFFSET: u32 = 4;

/// In a column's entry: the address of the octets of its texts, or 0 where it has none.
pub const ENTRY_OCTETS_OFFSET: u32 = 8;

/// In a column's entry: how many rows it has.
pub const ENTRY_ROWS_OFFSET: u32 = 12;

/// In a result row: the address of the next row, or 0 in the last one.
pub const NEXT_OFFSET: u32 = 0;

/// In a result row: its first cell.
pub const CELL_OFFSET: u32 = 8;

/// In a cell: 1 where it is null, else 0.
pub const CELL_NULL_OFFSET: u32 = 8;

/// In a cell of a text: the number of its octets.
pub const CELL_LENGTH_OFFSET: u32 = 4;

/// Octets of a cell.
pub const CELL_SIZE: u32 = 16;

/// Where a column stands in the memory: the addresses of its three parts. A part that it hasn't is empty.
#[derive(Clone, Copy, Debug, PartialEq, Eq)]
pub struct Placed {
    /// The address of its values, or of the offsets of its texts.
    pub values: u64,
    /// The address of the octets of its texts.
    pub octets: u64,
    /// How many octets its texts have together.
    pub size: u64,
    /// The address of its null bits.
    pub nulls: u64,
    /// How many rows it has.
    pub rows: u64,
}

/// A column that a module uses.
#[derive(Clone, Copy, Debug, PartialEq, Eq)]
pub struct Used {
    /// Its table, counted from 0 in the schema.
    pub table: usize,
    /// The column, counted from 0 in the table.
    pub column: usize,
    pub ty: Ty,
    /// Whether it is declared NOT NULL.
    pub not_null: bool,
}

/// What a module reads and leaves: the columns that it uses, each once; the octets of its texts; and the kinds of the cells of its
/// result rows. Contracts see it as lists. Its descriptor fits a page.
#[derive(Debug, Drop)]
pub struct Layout {
    columns: Vec<Used>,
    literals: Vec<u8>,
    cells: Vec<Kind>,
}

impl Model for Layout {
    ghost use Rattle.std.specs.Prelude.{◌≤◌};
    ghost use Rattle.qw_linear.specs.Memory.{page};
    ghost use Rattle.qw_map.specs.Layout.{Layout, descriptor_size};

    ghost Value = { Layout };

    ghost view = { λ a. record { columns = a.columns.items; literals = a.literals.items; cells = a.cells.items } };

    ghost invariant = { λ a. descriptor_size (record { columns = a.columns.items; literals = a.literals.items; cells = a.cells.items }) ≤ page };
}

impl Layout {
    /// The layout of these columns, octets of texts, and kinds of cells.
    pub fn new(columns: Vec<Used>, literals: Vec<u8>, cells: Vec<Kind>) -> Self
        requires { layout.descriptor_size (record { columns = columns.items; literals = literals.items; cells = cells.items }) ≤ page }
        ensures { result ≡ record { columns = columns.items; literals = literals.items; cells = cells.items } }
    {
        Layout {
            columns,
            literals,
            cells,
        }
    }

    /// The columns that the module uses.
    pub fn columns(&self) -> &[Used]
        ensures columns { result.now ≡ self.now.columns }
        ensures small { layout.descriptor_size self.now ≤ page }
    {
        self.columns.as_slice()
    }

    /// The octets of its texts, one text after another.
    pub fn literals(&self) -> &[u8]
        ensures literals { result.now ≡ self.now.literals }
        ensures small { layout.descriptor_size self.now ≤ page }
    {
        self.literals.as_slice()
    }

    /// The kinds of the cells of a result row.
    pub fn cells(&self) -> &[Kind]
        ensures { result.now ≡ self.now.cells }
    {
        self.cells.as_slice()
    }

    /// How many octets the descriptor has.
    pub fn descriptor_size(&self) -> u32
        ensures { result ≡ layout.descriptor_size self.now }
    {
        let end = HEAD_SIZE as usize
            + ENTRY_SIZE as usize * self.columns.len()
            + self.literals.len();
        (end.div_ceil(COLUMN_ALIGNMENT) * COLUMN_ALIGNMENT) as u32
    }
}

/// Where a column's entry begins in the descriptor, by the column's index among those that are used.
pub fn entry_offset(index: u32) -> u32
    requires { index ≤ 4096 }
    ensures { result ≡ layout.entry_offset index }
{
    HEAD_SIZE + ENTRY_SIZE * index
}

/// The octets of a result row of so many cells.
pub fn row_size(cells: usize) -> u32
    requires { cells ≤ most_cells }
    ensures { result ≡ layout.row_size cells }
{
    CELL_OFFSET + CELL_SIZE * cells as u32
}
