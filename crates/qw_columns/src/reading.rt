//! The values of columns, read back from the memory.

ghost use Rattle.std.specs.Prelude.{◌≡◌, ◌≤◌, ◌<◌, ◌+◌, ◌*◌, ◌/◌, ◌^◌, IfOk, IsOk, IsSome, List, Some, length, false};
ghost use Rattle.std.specs.Int.{cast_signed, w32, w64};
ghost use Rattle.qw_types.specs.Contents.{Contents};
ghost use Rattle.qw_types.specs.declared.schema.ColumnType.{ColumnType};
ghost use Rattle.qw_linear.specs.Memory.{number_at};
ghost use Rattle.qw_map.specs.Columns as columns;
ghost use Rattle.qw_map.specs.Layout.{is_text};
ghost use Rattle.qw_columns.specs.Inner.Reading.{IsReadable, IsReadableText};
ghost use Rattle.qw_columns.specs.Mapped.{IsMapOf, at_indices, value_in};

use crate::column_map::ColumnMap;
use qw_linear::linear::{Linear, MAX_PAGES};
use qw_map::layout::Placed;
use qw_types::{NoMemory, Text, Ty, Val};
use std::alloc::Global;

/// The value of a row in a column of a table, all counted from 0. Only texts take memory.
pub fn value_at(
    alloc: Global,
    memory: &Linear,
    map: &ColumnMap,
    table: usize,
    column: usize,
    row: usize,
) -> Result<Val, NoMemory>
    requires { (tables : List Contents) × IsMapOf map.now memory.now.octets tables × IsSome (value_in tables table column row) }
    ensures value { IfOk result (λ value. (tables : List Contents) → IsMapOf map.now memory.now.octets tables
        → value_in tables table column row ≡ Some value) }
    ensures certain { (type : ColumnType) → at_indices map.now.columns table column ≡ Some type → is_text type.ty ≡ false → IsOk result }
{
    let pages = memory.size();
    // So addresses are numbers of 32 bits.
    prove!(pages <= MAX_PAGES);
    let column_type = map.column(table, column);
    let placed = map.placed(table, column);
    let row = row as u64;
    if is_null(memory, column_type.not_null, &placed, row) {
        return Ok(Val::Null);
    }
    stored_value(alloc, memory, column_type.ty, &placed, row)
}

/// Whether the value of a row is null.
fn is_null(memory: &Linear, not_null: bool, placed: &Placed, row: u64) -> bool
    requires small { length memory.now.octets < 2 ^ 32 }
    requires inside { not_null ≡ false → placed.now.nulls + row / 8 + 1 ≤ length memory.now.octets }
    ensures { result ≡ columns.is_null_at memory.now.octets not_null placed.now row }
{
    !not_null && null_bit(memory, placed, row) == 1
}

/// The null bit of a row.
fn null_bit(memory: &Linear, placed: &Placed, row: u64) -> u64
    requires small { length memory.now.octets < 2 ^ 32 }
    requires inside { placed.now.nulls + row / 8 + 1 ≤ length memory.now.octets }
    ensures { result ≡ columns.null_bit memory.now.octets placed.now.nulls row }
{
    let octet = memory.load8(placed.nulls + row / 8).unwrap();
    (octet >> (row % 8)) % 2
}

/// What stands in the place of a row's value.
fn stored_value(
    alloc: Global,
    memory: &Linear,
    ty: Ty,
    placed: &Placed,
    row: u64,
) -> Result<Val, NoMemory>
    requires small { length memory.now.octets < 2 ^ 32 }
    requires readable { IsReadable memory.now.octets ty placed.now row }
    ensures value { IfOk result (λ value. value ≡ columns.stored_at memory.now.octets ty placed.now row) }
    ensures certain { is_text ty ≡ false → IsOk result }
{
    match ty {
        Ty::Integer => Ok(Val::Num(i64::from(number32(memory, placed.values + 4 * row)))),
        Ty::Decimal { .. } => Ok(Val::Num(number64(memory, placed.values + 8 * row))),
        Ty::Date => Ok(Val::Date(number32(memory, placed.values + 4 * row))),
        Ty::Varchar { .. } => Ok(Val::Text(text_at(alloc, memory, placed, row)?)),
    }
}

/// The signed number of four octets.
fn number32(memory: &Linear, at: u64) -> i32
    requires { at + 4 ≤ length memory.now.octets }
    ensures { result ≡ cast_signed w32 (number_at memory.now.octets at 4) }
{
    (memory.load32(at).unwrap() as u32).cast_signed()
}

/// The signed number of eight octets.
fn number64(memory: &Linear, at: u64) -> i64
    requires { at + 8 ≤ length memory.now.octets }
    ensures { result ≡ cast_signed w64 (number_at memory.now.octets at 8) }
{
    memory.load64(at).unwrap().cast_signed()
}

/// The text of a row.
fn text_at(alloc: Global, memory: &Linear, placed: &Placed, row: u64) -> Result<Text, NoMemory>
    requires small { length memory.now.octets < 2 ^ 32 }
    requires readable { IsReadableText memory.now.octets placed.now row }
    ensures { IfOk result (λ text. text ≡ columns.text_at memory.now.octets placed.now row) }
{
    let at = placed.values + 4 * row;
    let start = memory.load32(at).unwrap();
    let end = memory.load32(at + 4).unwrap();
    let octets = memory
        .octets_at(placed.octets + start, end - start)
        .unwrap();
    let text = str::from_utf8(octets).unwrap();
    Ok(Text::new(String::from_str(alloc, text)?))
}
