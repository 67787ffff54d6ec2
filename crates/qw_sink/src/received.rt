//! The result rows of an instance in the report: each cell goes from the memory into its line, so that a row takes no memory of
//! its own.

ghost use Rattle.std.specs.Prelude.{◌≡◌, ◌+◌, ◌*◌, ◌<◌, ◌≤◌, ◌^◌, ◌++◌, List, ℕ, length, IfOk, OnOk, IsSome, Some, false};
ghost use Rattle.std.specs.List.{AllByRecursion};
ghost use Rattle.qw_types.specs.declared.value.Val.{Val};
ghost use Rattle.qw_map.specs.Areas.{Area, World};
ghost use Rattle.qw_map.specs.Layout.{cells_at, rows_at, rows_from};
ghost use Rattle.qw_map.specs.Turns.{Done, LiesWithin};
ghost use Rattle.qw_bench.specs.Bench.{end_in, released_in};
ghost use Rattle.qw_bench.specs.Standing.{rows_in};
ghost use Rattle.qw_sink.specs.Sink.{line_of, printed_row, report_of_rows, text_of_rows};
ghost use Rattle.qw_sink.specs.Inner.Sink.{HasWritten};

use crate::cells::{Chain, cell_at, chain_at};
use crate::lines::{end_line, write_cell, write_names};
use crate::sink::{Head, headline, with_line};
use csv::{Writer, WriterBuilder};
use qw_bench::bench::Bench;
use qw_linear::linear::Linear;
use qw_map::layout::{CELL_OFFSET, CELL_SIZE, Layout};
use qw_types::{Kind, NoMemory};
use std::alloc::Global;

/// A report with the part of a query of this number, from 1 on, whose instance is done and not released: `QUERY k ROWS r`, and its
/// result rows under their header.
///
/// # Errors
///
/// [`NoMemory`] where the report doesn't fit memory.
pub fn with_rows(
    alloc: Global,
    report: Vec<u8>,
    number: usize,
    header: &[Head],
    bench: &Bench,
    i: usize,
) -> Result<Vec<u8>, NoMemory>
    requires done { end_in bench.now.shared i ≡ Some Done }
    requires held { released_in bench.now.shared i ≡ false }
    ensures { IfOk result (λ text. (rows : List (List Val)) × (rows_in bench.now i ≡ Some rows)
        × (text.items ≡ report.items ++ report_of_rows number header.now rows)) }
{
    with_rows_at(
        alloc,
        report,
        number,
        header,
        bench.memory(),
        bench.descriptor(i),
        bench.layout(i),
    )
}

/// A report with the part of a query whose result rows a descriptor leads to.
fn with_rows_at(
    alloc: Global,
    report: Vec<u8>,
    number: usize,
    header: &[Head],
    memory: &Linear,
    descriptor: u64,
    layout: &Layout,
) -> Result<Vec<u8>, NoMemory>
    requires room { length memory.now.octets < 2 ^ 32 }
    requires there { (w : World) × AllByRecursion (LiesWithin (length memory.now.octets)) w.own
        × IsSome (rows_at layout.now w memory.now.octets descriptor) }
    ensures { IfOk result (λ text. (w : World) (rows : List (List Val)) → rows_at layout.now w memory.now.octets descriptor ≡ Some rows
        → text.items ≡ report.items ++ report_of_rows number header.now rows) }
{
    let chain = chain_at(memory, descriptor);
    let headline = headline(alloc, number, chain.count)?;
    let report = with_line(report, headline.as_str())?;
    with_chain(alloc, report, header, memory, chain, layout.cells())
}

/// A text, and after it the rows of a chain under their header. The lines go where the text is, so that no text is copied whole.
fn with_chain(
    alloc: Global,
    text: Vec<u8>,
    header: &[Head],
    memory: &Linear,
    chain: Chain,
    kinds: &[Kind],
) -> Result<Vec<u8>, NoMemory>
    requires room { length memory.now.octets < 2 ^ 32 }
    requires small { chain.first < 2 ^ 32 }
    requires there { (texts own : List Area) × AllByRecursion (LiesWithin (length memory.now.octets)) own
        × IsSome (rows_from kinds.now texts own memory.now.octets chain.count chain.first) }
    ensures { IfOk result (λ whole. (texts own : List Area) (rows : List (List Val)) → rows_from kinds.now texts own memory.now.octets chain.count chain.first ≡ Some rows
        → whole.items ≡ text.items ++ text_of_rows header.now rows) }
{
    let mut writer = WriterBuilder::new().from_writer(text);
    let written = write_chain(alloc, &mut writer, header, memory, chain, kinds);
    match (written, writer.into_inner()) {
        (Ok(()), Ok(whole)) => Ok(whole),
        _ => Err(NoMemory),
    }
}

/// Writes the rows of a chain under their header. It works through a reference, so that no return leaves a writer behind.
fn write_chain(
    alloc: Global,
    writer: &mut Writer<Vec<u8>>,
    header: &[Head],
    memory: &Linear,
    chain: Chain,
    kinds: &[Kind],
) -> Result<(), NoMemory>
    requires room { length memory.now.octets < 2 ^ 32 }
    requires small { chain.first < 2 ^ 32 }
    requires there { (texts own : List Area) × AllByRecursion (LiesWithin (length memory.now.octets)) own
        × IsSome (rows_from kinds.now texts own memory.now.octets chain.count chain.first) }
    ensures { OnOk result ((texts own : List Area) (rows : List (List Val)) → rows_from kinds.now texts own memory.now.octets chain.count chain.first ≡ Some rows
        → (text : List ℕ) → HasWritten writer.old text → HasWritten writer.new (text ++ text_of_rows header.now rows)) }
{
    write_names(writer, header)?;
    let mut digits = String::new(alloc);
    let mut at = chain.first;
    for _ in 0..chain.count {
        let cells = at + u64::from(CELL_OFFSET);
        write_cells(writer, &mut digits, header, memory, cells, kinds)?;
        at = memory.load32(at).unwrap();
    }
    Ok(())
}

/// Writes a line of the row whose cells begin at an address, each under its head.
fn write_cells(
    writer: &mut Writer<Vec<u8>>,
    digits: &mut String,
    header: &[Head],
    memory: &Linear,
    cells: u64,
    kinds: &[Kind],
) -> Result<(), NoMemory>
    requires room { length memory.now.octets < 2 ^ 32 }
    requires inside { cells + 16 * length kinds.now ≤ length memory.now.octets }
    requires there { (texts : List Area) × IsSome (cells_at texts memory.now.octets cells kinds.now) }
    ensures { OnOk result ((texts : List Area) (row : List Val) → cells_at texts memory.now.octets cells kinds.now ≡ Some row
        → (text : List ℕ) → HasWritten writer.old text → HasWritten writer.new (text ++ line_of (printed_row header.now row))) }
{
    for index in 0..header.len().min(kinds.len()) {
        let cell = cell_at(
            memory,
            cells + u64::from(CELL_SIZE) * index as u64,
            kinds[index],
        );
        write_cell(writer, digits, header[index].kind, cell)?;
    }
    end_line(writer)
}
