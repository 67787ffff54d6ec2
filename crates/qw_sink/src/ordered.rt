//! The result rows of an instance in the report, in the order of ORDER BY. Rows that are sorted are in memory as values, all of them;
//! without keys none is.

ghost use Rattle.std.specs.Prelude.{◌≡◌, ◌++◌, List, ℕ, IfOk, OnOk, Some, false};
ghost use Rattle.qw_types.specs.declared.value.Val.{Val};
ghost use Rattle.qw_map.specs.Turns.{Done};
ghost use Rattle.qw_order.specs.Order.{AreSorted};
ghost use Rattle.qw_bench.specs.Bench.{end_in, released_in};
ghost use Rattle.qw_bench.specs.Standing.{rows_in};
ghost use Rattle.qw_sink.specs.Sink.{line_of, printed_row, report_of_rows, text_of_rows};
ghost use Rattle.qw_sink.specs.Inner.Sink.{HasWritten};

use crate::cells::lent;
use crate::lines::{end_line, write_cell, write_names};
use crate::received::with_rows;
use crate::results::received;
use crate::sink::{Head, headline, with_line};
use csv::{Writer, WriterBuilder};
use qw_bench::bench::Bench;
use qw_order::SortKey;
use qw_order::order::order;
use qw_types::{NoMemory, Row, Val};
use std::alloc::Global;

/// A report with the part of a query of this number, from 1 on, whose instance is done and not released: `QUERY k ROWS r`, and its
/// result rows under their header in the order of the keys; without keys as they were received.
///
/// # Errors
///
/// [`NoMemory`] where the report, or the rows that are sorted, don't fit memory.
pub fn with_ordered_rows(
    alloc: Global,
    report: Vec<u8>,
    number: usize,
    header: &[Head],
    keys: &[SortKey],
    bench: &Bench,
    i: usize,
) -> Result<Vec<u8>, NoMemory>
    requires done { end_in bench.now.shared i ≡ Some Done }
    requires held { released_in bench.now.shared i ≡ false }
    ensures { IfOk result (λ text. (rows printed : List (List Val)) × (rows_in bench.now i ≡ Some rows) × AreSorted keys.now rows printed
        × (text.items ≡ report.items ++ report_of_rows number header.now printed)) }
{
    if keys.is_empty() {
        return with_rows(alloc, report, number, header, bench, i);
    }
    let rows = order(received(alloc, bench, i)?, keys)?;
    with_values(alloc, report, number, header, rows.as_slice())
}

/// A report with the part of a query that gave these rows.
fn with_values(
    alloc: Global,
    report: Vec<u8>,
    number: usize,
    header: &[Head],
    rows: &[Row],
) -> Result<Vec<u8>, NoMemory>
    ensures { IfOk result (λ text. text.items ≡ report.items ++ report_of_rows number header.now rows.now) }
{
    let headline = headline(alloc, number, rows.len() as u64)?;
    let report = with_line(report, headline.as_str())?;
    with_lines(alloc, report, header, rows)
}

/// A text, and after it rows under their header. The lines go where the text is, so that no text is copied whole.
fn with_lines(
    alloc: Global,
    text: Vec<u8>,
    header: &[Head],
    rows: &[Row],
) -> Result<Vec<u8>, NoMemory>
    ensures { IfOk result (λ whole. whole.items ≡ text.items ++ text_of_rows header.now rows.now) }
{
    let mut writer = WriterBuilder::new().from_writer(text);
    let written = write_rows(alloc, &mut writer, header, rows);
    match (written, writer.into_inner()) {
        (Ok(()), Ok(whole)) => Ok(whole),
        _ => Err(NoMemory),
    }
}

/// Writes rows under their header. It works through a reference, so that no return leaves a writer behind.
fn write_rows(
    alloc: Global,
    writer: &mut Writer<Vec<u8>>,
    header: &[Head],
    rows: &[Row],
) -> Result<(), NoMemory>
    ensures { OnOk result ((text : List ℕ) → HasWritten writer.old text → HasWritten writer.new (text ++ text_of_rows header.now rows.now)) }
{
    write_names(writer, header)?;
    let mut digits = String::new(alloc);
    for row in rows {
        write_row(writer, &mut digits, header, row.values())?;
    }
    Ok(())
}

/// Writes a line of a row, each value under its head.
fn write_row(
    writer: &mut Writer<Vec<u8>>,
    digits: &mut String,
    header: &[Head],
    row: &[Val],
) -> Result<(), NoMemory>
    ensures { OnOk result ((text : List ℕ) → HasWritten writer.old text → HasWritten writer.new (text ++ line_of (printed_row header.now row.now))) }
{
    for index in 0..header.len().min(row.len()) {
        write_cell(writer, digits, header[index].kind, lent(&row[index]))?;
    }
    end_line(writer)
}
