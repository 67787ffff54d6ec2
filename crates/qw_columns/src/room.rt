//! How much of the memory columns take, and where their parts begin.

ghost use Rattle.std.specs.Prelude.{◌≡◌, ◌≤◌, ◌<◌, ◌+◌, ◌*◌, ◌^◌, length, Some, slice_get};
ghost use Rattle.std.specs.List.{AllByRecursion};
ghost use Rattle.qw_types.specs.Contents.{AreLoaded, Contents};
ghost use Rattle.qw_types.specs.Limits.{most_rows, most_tables};
ghost use Rattle.qw_types.specs.Value.{text_octets};
ghost use Rattle.qw_types.specs.declared.schema.ColumnType.{ColumnType};
ghost use Rattle.qw_map.specs.Columns as columns;

use qw_csv::{ColumnCells, Loaded};
use qw_linear::linear::PAGE;
use qw_map::layout::{COLUMN_ALIGNMENT, COLUMNS_START, Placed};
use qw_types::{ColumnType, Ty};

/// No column takes more octets: of a million rows 8 each for values or offsets, 4,000 each for texts, and null bits.
const MAX_COLUMN_SIZE: u64 = 4_008_125_000;

/// Nor do the 64 columns of a table.
const MAX_TABLE_SIZE: u64 = 256_520_000_000;

/// The columns of 32 tables take no more pages.
pub const MAX_COLUMN_PAGES: u64 = 125_253_907;

/// How many pages the columns of loaded tables take together. Nothing else stands on the last one.
pub fn pages_needed(loaded: &[Loaded]) -> u64
    requires { length loaded.now ≤ most_tables }
    ensures pages { result ≡ columns.column_pages loaded.now }
    ensures limit { result ≤ MAX_COLUMN_PAGES }
    ensures loaded { AllByRecursion AreLoaded loaded.now }
{
    tables_end(loaded).div_ceil(PAGE as u64)
}

/// Where the columns of tables end.
fn tables_end(loaded: &[Loaded]) -> u64
    requires { length loaded.now ≤ most_tables }
    ensures end { result ≡ columns.tables_end columns.columns_start loaded.now }
    ensures limit { result ≤ 64 + MAX_TABLE_SIZE * length loaded.now }
    ensures loaded { AllByRecursion AreLoaded loaded.now }
{
    let mut end = COLUMNS_START as u64;
    for table in loaded {
        end = columns_end(table, end);
    }
    end
}

/// Where the columns of a table end that begin at an address.
pub(crate) fn columns_end(loaded: &Loaded, at: u64) -> u64
    requires { at ≤ 2 ^ 60 }
    ensures end { result ≡ columns.columns_end at loaded.now.columns 0 loaded.now.rows }
    ensures limit { result ≤ at + MAX_TABLE_SIZE }
    ensures loaded { AreLoaded loaded.now }
{
    let mut end = at;
    for column in 0..loaded.width() {
        end = column_end(
            column_type(loaded, column).not_null,
            &placed_at(loaded, column, end),
        );
    }
    end
}

/// The least multiple of 8 behind a column that may take so many octets.
pub(crate) fn column_end(not_null: bool, placed: &Placed) -> u64
    requires rows { placed.now.rows ≤ most_rows }
    requires small { placed.now.nulls ≤ 2 ^ 62 }
    ensures end { result ≡ columns.column_end not_null placed.now }
    ensures limit { result ≤ placed.now.nulls + 125_000 }
{
    placed.nulls + to_eight(nulls_size(not_null, placed.rows))
}

/// Where the parts of a column stand whose values begin at an address.
pub(crate) fn placed_at(loaded: &Loaded, column: usize, at: u64) -> Placed
    requires column { column < length loaded.now.columns }
    requires small { at ≤ 2 ^ 61 }
    ensures placed { (type : ColumnType) → slice_get loaded.now.columns column ≡ Some type
        → result ≡ columns.placed_at at type.ty (columns.column_values loaded.now.rows column) }
    ensures rows { result.rows ≤ most_rows }
    ensures limit { result.nulls + 125_000 ≤ at + MAX_COLUMN_SIZE }
{
    let rows = loaded.len() as u64;
    let size = text_octets(loaded, column);
    let octets = at + to_eight(values_size(column_type(loaded, column).ty, rows));
    Placed {
        values: at,
        octets,
        size,
        nulls: octets + to_eight(size),
        rows,
    }
}

/// The type of a column.
pub(crate) fn column_type(loaded: &Loaded, column: usize) -> ColumnType
    requires { column < length loaded.now.columns }
    ensures { slice_get loaded.now.columns column ≡ Some result }
{
    loaded.columns()[column]
}

/// How many octets the texts of a column have together; none where its type is another.
fn text_octets(loaded: &Loaded, column: usize) -> u64
    requires loaded { AreLoaded loaded.now }
    requires column { column < length loaded.now.columns }
    ensures octets { result ≡ text_octets (columns.column_values loaded.now.rows column) }
    ensures limit { result ≤ 4_000 * most_rows }
{
    match loaded.cells(column) {
        ColumnCells::Texts { octets, .. } => octets.len() as u64,
        _ => 0,
    }
}

/// How many octets the values of so many rows take.
fn values_size(ty: Ty, rows: u64) -> u64
    requires { rows ≤ most_rows }
    ensures { result ≡ columns.values_size ty rows }
{
    match ty {
        Ty::Integer | Ty::Date => 4 * rows,
        Ty::Decimal { .. } => 8 * rows,
        Ty::Varchar { .. } => 4 * rows + 4,
    }
}

/// How many octets the null bits of so many rows take.
pub(crate) fn nulls_size(not_null: bool, rows: u64) -> u64
    requires { rows ≤ most_rows }
    ensures { result ≡ columns.nulls_size not_null rows }
{
    if not_null { 0 } else { rows.div_ceil(8) }
}

/// The least multiple of 8 that isn't below a number.
fn to_eight(number: u64) -> u64
    requires { number ≤ 2 ^ 62 }
    ensures { result ≡ columns.to_eight number }
{
    number.div_ceil(COLUMN_ALIGNMENT as u64) * COLUMN_ALIGNMENT as u64
}
