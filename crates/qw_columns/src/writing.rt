//! Columns, written part by part. Each function leaves what stands below its part as it was.

ghost use Rattle.std.specs.Prelude.{◌≡◌, ◌≤◌, ◌<◌, ◌+◌, ◌*◌, ◌/◌, ◌^◌, ◌++◌, take, drop, ℕ, List, length, map, slice_get};
ghost use Rattle.qw_types.specs.Contents.{Contents};
ghost use Rattle.qw_types.specs.declared.value.Val.{Val};
ghost use Rattle.qw_types.specs.declared.value.Val.TheVariants.{Num};
ghost use Rattle.qw_csv.specs.Cells.{AreTexts};
ghost use Rattle.qw_linear.specs.Memory.{AreOctets, most_pages, page};
ghost use Rattle.qw_map.specs.Columns.{HoldsColumn, HoldsTable, column_end, columns_end, placed_at};
ghost use Rattle.qw_columns.specs.Inner.Writing.{AreColumnsAt, GrowsFrom, HasNulls, HasNumbers, HasStarts, HasValues, KeepsBelow, flags_from, is_null, pages_to};

use crate::room::column_end;
use qw_csv::{Cell, ColumnCells, LoadedColumn};
use qw_linear::linear::{Linear, PAGE};
use qw_map::layout::Placed;

/// Writes the columns of a table where the map says, one after another: the memory grows to the end of a column, the column is written,
/// and what it was kept in is freed, before the memory grows for the next. So no more than one column stands twice.
pub(crate) fn write_table(columns: Vec<LoadedColumn>, placed: &[Placed], memory: &mut Linear)
    requires room { (at : ℕ) × (table : Contents) × AreColumnsAt at table columns.items placed.now
        × (length memory.old.octets ≡ pages_to at * page) × (columns_end at table.columns 0 table.rows ≤ memory.old.reserved * page) }
    requires limit { memory.old.reserved ≤ most_pages }
    ensures holds { (at : ℕ) (table : Contents) → AreColumnsAt at table columns.items placed.now → HoldsTable memory.new.octets placed.now table }
    ensures grows { (at : ℕ) (table : Contents) → AreColumnsAt at table columns.items placed.now → GrowsFrom memory.old memory.new at }
    ensures len { (at : ℕ) (table : Contents) → AreColumnsAt at table columns.items placed.now → length memory.old.octets ≡ pages_to at * page
        → length memory.new.octets ≡ pages_to (columns_end at table.columns 0 table.rows) * page }
{
    let mut index = 0;
    for column in columns {
        place_column(column, &placed[index], memory);
        index += 1;
    }
}

/// Grows the memory to the end of a column, writes the column there, and frees what it was kept in.
fn place_column(column: LoadedColumn, placed: &Placed, memory: &mut Linear)
    requires placed { placed.now ≡ placed_at placed.now.values column.type.ty column.values }
    requires room { column_end column.type.not_null placed.now ≤ memory.old.reserved * page }
    requires len { length memory.old.octets ≡ pages_to placed.now.values * page }
    requires limit { memory.old.reserved ≤ most_pages }
    ensures holds { HoldsColumn memory.new.octets column.type.ty column.type.not_null placed.now column.values }
    ensures grows { GrowsFrom memory.old memory.new placed.now.values }
    ensures len { length memory.new.octets ≡ pages_to (column_end column.type.not_null placed.now) * page }
{
    grow_to(memory, column_end(column.column_type().not_null, placed));
    write_column(&column, placed, memory);
}

/// Grows the memory to the whole pages of so many octets, where it has fewer.
pub(crate) fn grow_to(memory: &mut Linear, end: u64)
    requires { end ≤ memory.old.reserved * page }
    ensures grows { (at : ℕ) → GrowsFrom memory.old memory.new at }
    ensures len { (at : ℕ) → at ≤ end → length memory.old.octets ≡ pages_to at * page → length memory.new.octets ≡ pages_to end * page }
    ensures small { length memory.new.octets < 2 ^ 32 }
{
    let held = u64::from(memory.size());
    let pages = end.div_ceil(PAGE as u64);
    if held < pages {
        memory.grow((pages - held) as u32).unwrap();
    }
}

/// Writes a column.
fn write_column(column: &LoadedColumn, placed: &Placed, memory: &mut Linear)
    requires placed { placed.now ≡ placed_at placed.now.values column.now.type.ty column.now.values }
    requires room { column_end column.now.type.not_null placed.now ≤ length memory.old.octets }
    requires small { length memory.old.octets < 2 ^ 32 }
    ensures holds { HoldsColumn memory.new.octets column.now.type.ty column.now.type.not_null placed.now column.now.values }
    ensures keeps { KeepsBelow memory.old memory.new placed.now.values }
{
    let column_type = column.column_type();
    write_values(column, placed, memory);
    if !column_type.not_null {
        write_nulls(column, placed.nulls, memory);
    }
}

/// Writes the values of a column, or the offsets of its texts and their octets.
fn write_values(column: &LoadedColumn, placed: &Placed, memory: &mut Linear)
    requires placed { placed.now ≡ placed_at placed.now.values column.now.type.ty column.now.values }
    requires room { placed.now.nulls ≤ length memory.old.octets }
    requires small { length memory.old.octets < 2 ^ 32 }
    ensures values { HasValues memory.new.octets column.now.type.ty placed.now column.now.values }
    ensures keeps { KeepsBelow memory.old memory.new placed.now.values }
{
    match column.cells() {
        ColumnCells::Short(numbers) => write_short(numbers, placed.values, memory),
        ColumnCells::Long(numbers) => write_long(numbers, placed.values, memory),
        ColumnCells::Texts { ends, octets } => {
            write_offsets(ends, placed.values, memory);
            copy_octets(memory, placed.octets, octets);
        }
    }
}

/// Writes numbers of four octets from an address on.
fn write_short(numbers: &[i32], at: u64, memory: &mut Linear)
    requires room { at + 4 * length numbers.now ≤ length memory.old.octets }
    requires small { length memory.old.octets < 2 ^ 32 }
    ensures numbers { HasNumbers memory.new.octets at 4 (map Num numbers.now) (length numbers.now) }
    ensures keeps { KeepsBelow memory.old memory.new at }
{
    for row in 0..numbers.len() {
        let number = i64::from(numbers[row]);
        memory
            .store32(at + 4 * row as u64, number.cast_unsigned())
            .unwrap();
    }
}

/// Writes numbers of eight octets from an address on.
fn write_long(numbers: &[i64], at: u64, memory: &mut Linear)
    requires room { at + 8 * length numbers.now ≤ length memory.old.octets }
    requires small { length memory.old.octets < 2 ^ 32 }
    ensures numbers { HasNumbers memory.new.octets at 8 (map Num numbers.now) (length numbers.now) }
    ensures keeps { KeepsBelow memory.old memory.new at }
{
    for row in 0..numbers.len() {
        let number = numbers[row];
        memory
            .store64(at + 8 * row as u64, number.cast_unsigned())
            .unwrap();
    }
}

/// Writes where texts begin that end there, from 0 on, and behind the last of these offsets where the last text ends.
fn write_offsets(ends: &[u32], at: u64, memory: &mut Linear)
    requires room { at + 4 * length ends.now + 4 ≤ length memory.old.octets }
    requires small { length memory.old.octets < 2 ^ 32 }
    ensures starts { (octets : List ℕ) (values : List Val) → AreTexts ends.now octets values → HasStarts memory.new.octets at values (length ends.now + 1) }
    ensures keeps { KeepsBelow memory.old memory.new at }
{
    memory.store32(at, 0).unwrap();
    for row in 0..ends.len() {
        let end = u64::from(ends[row]);
        memory.store32(at + 4 * row as u64 + 4, end).unwrap();
    }
}

/// Copies the octets of texts to an address.
fn copy_octets(memory: &mut Linear, at: u64, octets: &[u8])
    requires { at + length octets.now ≤ length memory.old.octets }
    ensures copied { memory.new ≡ record { octets = take at memory.old.octets ++ octets.now ++ drop (at + length octets.now) memory.old.octets; reserved = memory.old.reserved } }
    ensures octets { AreOctets octets.now }
{
    memory.copy_in(at, octets).unwrap();
}

/// Writes the null bits of a column from an address on.
fn write_nulls(column: &LoadedColumn, at: u64, memory: &mut Linear)
    requires room { at + (length column.now.values + 7) / 8 ≤ length memory.old.octets }
    requires small { length memory.old.octets < 2 ^ 32 }
    ensures nulls { HasNulls memory.new.octets at column.now.values ((length column.now.values + 7) / 8) }
    ensures keeps { KeepsBelow memory.old memory.new at }
{
    for group in 0..column.len().div_ceil(8) {
        let octet = null_octet(column, group);
        memory.store8(at + group as u64, u64::from(octet)).unwrap();
    }
}

/// The null bits of eight rows, the first of them in the lowest bit.
fn null_octet(column: &LoadedColumn, group: usize) -> u8
    requires { group ≤ 125_000 }
    ensures { result ≡ flags_from column.now.values (8 * group) 8 }
{
    let mut octet = 0;
    for bit in 0..8 {
        octet = 2 * octet + u8::from(is_null(column, 8 * group + 7 - bit));
    }
    octet
}

/// Whether there is such a row, and its value is null.
fn is_null(column: &LoadedColumn, row: usize) -> bool
    ensures { result ≡ is_null (slice_get column.now.values row) }
{
    row < column.len() && matches!(column.cell(row), Cell::Null)
}
