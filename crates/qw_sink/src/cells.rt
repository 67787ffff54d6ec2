//! The result rows of an instance where they lie in the memory: the chain of rows, and the value of a cell.

ghost use Rattle.std.specs.Prelude.{◌≡◌, ◌+◌, ◌<◌, ◌≤◌, ◌^◌, List, length, IfOk, IsSome, Some};
ghost use Rattle.qw_linear.specs.Memory.{number_at};
ghost use Rattle.qw_map.specs.Areas.{Area};
ghost use Rattle.qw_map.specs.Layout.{cell_at, plain_cell};
ghost use Rattle.qw_sink.specs.Inner.Cells.{HasText, val_of};

use qw_linear::linear::Linear;
use qw_map::layout::{CELL_LENGTH_OFFSET, CELL_NULL_OFFSET, COUNT_OFFSET, FIRST_ROW_OFFSET};
use qw_types::{Kind, NoMemory, Text, Val};
use std::alloc::Global;

/// The value of a cell, its text lent, so that reading one takes no memory.
#[derive(Clone, Copy)]
pub(crate) enum Cell<'a> {
    /// The null value.
    Null,
    /// A number, as the whole number that it is at its column's scale.
    Number(i64),
    /// A date, as year * 10000 + month * 100 + day.
    Date(i32),
    /// The octets of a text.
    Text(&'a [u8]),
}

/// The value as one of a row, its text copied.
pub(crate) fn owned(alloc: Global, cell: Cell<'_>) -> Result<Val, NoMemory>
    requires { HasText cell }
    ensures { IfOk result (λ value. value ≡ val_of cell.entry) }
{
    Ok(match cell {
        Cell::Null => Val::Null,
        Cell::Number(number) => Val::Num(number),
        Cell::Date(day) => Val::Date(day),
        Cell::Text(octets) => {
            let text = std::str::from_utf8(octets).unwrap();
            Val::Text(Text::new(String::from_str(alloc, text)?))
        }
    })
}

/// A value as that of a cell, its text lent.
pub(crate) fn lent(value: &Val) -> Cell<'_>
    ensures { val_of result ≡ value.now }
{
    match value {
        Val::Null => Cell::Null,
        Val::Num(number) => Cell::Number(*number),
        Val::Date(day) => Cell::Date(*day),
        Val::Text(text) => Cell::Text(text.as_str().as_bytes()),
    }
}

/// The value of the cell at an address.
pub(crate) fn cell_at(memory: &Linear, at: u64, kind: Kind) -> Cell<'_>
    requires room { length memory.now.octets < 2 ^ 32 }
    requires inside { at + 16 ≤ length memory.now.octets }
    requires there { (texts : List Area) × IsSome (cell_at texts memory.now.octets at kind) }
    ensures value { (texts : List Area) → IsSome (cell_at texts memory.now.octets at kind)
        → cell_at texts memory.now.octets at kind ≡ Some (val_of result) }
    ensures text { HasText result }
{
    if memory.load8(at + u64::from(CELL_NULL_OFFSET)).unwrap() == 1 {
        return Cell::Null;
    }
    plain_cell(memory, at, kind)
}

/// The value of a cell that isn't null.
fn plain_cell(memory: &Linear, at: u64, kind: Kind) -> Cell<'_>
    requires room { length memory.now.octets < 2 ^ 32 }
    requires inside { at + 16 ≤ length memory.now.octets }
    requires there { (texts : List Area) × IsSome (plain_cell texts memory.now.octets at kind) }
    ensures value { (texts : List Area) → IsSome (plain_cell texts memory.now.octets at kind)
        → plain_cell texts memory.now.octets at kind ≡ Some (val_of result) }
    ensures text { HasText result }
{
    let number = memory.load64(at).unwrap().cast_signed();
    match kind {
        Kind::Number(_) => Cell::Number(number),
        Kind::Date => Cell::Date(number as i32),
        Kind::Text => {
            let address = memory.load32(at).unwrap();
            let size = memory.load32(at + u64::from(CELL_LENGTH_OFFSET)).unwrap();
            Cell::Text(memory.octets_at(address, size).unwrap())
        }
    }
}

/// The chain of an instance's result rows, each of which has the address of the next one.
#[derive(Clone, Copy)]
pub(crate) struct Chain {
    /// The address of the first row, or 0 where there is none.
    pub(crate) first: u64,
    /// How many rows there are.
    pub(crate) count: u64,
}

/// The chain of rows that a descriptor leads to.
pub(crate) fn chain_at(memory: &Linear, descriptor: u64) -> Chain
    requires room { length memory.now.octets < 2 ^ 32 }
    requires inside { descriptor + 24 ≤ length memory.now.octets }
    ensures first { result.first ≡ number_at memory.now.octets (descriptor + 8) 4 }
    ensures small { result.first < 2 ^ 32 }
    ensures count { result.count ≡ number_at memory.now.octets (descriptor + 16) 8 }
{
    Chain {
        first: memory
            .load32(descriptor + u64::from(FIRST_ROW_OFFSET))
            .unwrap(),
        count: memory.load64(descriptor + u64::from(COUNT_OFFSET)).unwrap(),
    }
}
