//! The result rows of an instance, read from the memory.

ghost use Rattle.std.specs.Prelude.{◌≡◌, ◌+◌, ◌<◌, ◌≤◌, ◌^◌, ◌*◌, List, length, IfOk, IsSome, Some, false};
ghost use Rattle.std.specs.List.{AllByRecursion};
ghost use Rattle.qw_map.specs.Areas.{Area, World};
ghost use Rattle.qw_map.specs.Turns.{Done, LiesWithin};
ghost use Rattle.qw_map.specs.Layout.{cells_at, rows_at, rows_from};
ghost use Rattle.qw_bench.specs.Bench.{end_in, released_in};
ghost use Rattle.qw_bench.specs.Standing.{rows_in};

use crate::cells::{cell_at, chain_at, owned};
use qw_bench::bench::Bench;
use qw_linear::linear::Linear;
use qw_map::layout::{CELL_OFFSET, CELL_SIZE, Layout};
use qw_types::{Kind, NoMemory, Row};
use std::alloc::Global;

/// The result rows of an instance that is done and not released. The error is want of memory.
pub fn received(alloc: Global, bench: &Bench, i: usize) -> Result<Vec<Row>, NoMemory>
    requires done { end_in bench.now.shared i ≡ Some Done }
    requires held { released_in bench.now.shared i ≡ false }
    ensures { IfOk result (λ rows. rows_in bench.now i ≡ Some rows.items) }
{
    rows_of(alloc, bench.memory(), bench.descriptor(i), bench.layout(i))
}

/// The result rows that a descriptor leads to.
fn rows_of(
    alloc: Global,
    memory: &Linear,
    descriptor: u64,
    layout: &Layout,
) -> Result<Vec<Row>, NoMemory>
    requires room { length memory.now.octets < 2 ^ 32 }
    requires there { (w : World) × AllByRecursion (LiesWithin (length memory.now.octets)) w.own
        × IsSome (rows_at layout.now w memory.now.octets descriptor) }
    ensures { IfOk result (λ rows. (w : World) → IsSome (rows_at layout.now w memory.now.octets descriptor)
        → rows_at layout.now w memory.now.octets descriptor ≡ Some rows.items) }
{
    let chain = chain_at(memory, descriptor);
    chained_rows(alloc, memory, chain.first, chain.count, layout.cells())
}

/// So many rows, each of which has the address of the next one.
fn chained_rows(
    alloc: Global,
    memory: &Linear,
    first: u64,
    count: u64,
    kinds: &[Kind],
) -> Result<Vec<Row>, NoMemory>
    requires room { length memory.now.octets < 2 ^ 32 }
    requires small { first < 2 ^ 32 }
    requires there { (texts own : List Area) × AllByRecursion (LiesWithin (length memory.now.octets)) own
        × IsSome (rows_from kinds.now texts own memory.now.octets count first) }
    ensures { IfOk result (λ rows. (texts own : List Area) → IsSome (rows_from kinds.now texts own memory.now.octets count first)
        → rows_from kinds.now texts own memory.now.octets count first ≡ Some rows.items) }
{
    let mut rows = Vec::new(alloc);
    let mut at = first;
    for _ in 0..count {
        rows.push(row_at(alloc, memory, at + u64::from(CELL_OFFSET), kinds)?)?;
        at = memory.load32(at).unwrap();
    }
    Ok(rows)
}

/// The row whose cells begin at an address.
fn row_at(alloc: Global, memory: &Linear, cells: u64, kinds: &[Kind]) -> Result<Row, NoMemory>
    requires room { length memory.now.octets < 2 ^ 32 }
    requires inside { cells + 16 * length kinds.now ≤ length memory.now.octets }
    requires there { (texts : List Area) × IsSome (cells_at texts memory.now.octets cells kinds.now) }
    ensures { IfOk result (λ row. (texts : List Area) → IsSome (cells_at texts memory.now.octets cells kinds.now)
        → cells_at texts memory.now.octets cells kinds.now ≡ Some row) }
{
    let mut values = Vec::with_capacity(alloc, kinds.len())?;
    for (index, kind) in kinds.iter().enumerate() {
        let cell = cells + u64::from(CELL_SIZE) * index as u64;
        values.push(owned(alloc, cell_at(memory, cell, *kind))?)?;
    }
    Ok(Row::new(values))
}
