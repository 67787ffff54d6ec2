//! The header of a query's rows, and the lines of its part of the report.

ghost use Rattle.std.specs.Prelude.{◌≡◌, ◌<◌, ◌++◌, length, IfOk};
ghost use Rattle.std.specs.String.{string_bytes};
ghost use Rattle.qw_bench.specs.Bench.{held_in, ran_in};
ghost use Rattle.qw_sink.specs.Sink.{report_of_counts, report_of_exception, report_of_pages, report_of_steps, rows_line, sqlstate};

use qw_bench::bench::Bench;
use qw_types::{Code, Kind, NoMemory, Text};
use std::alloc::Global;
use std::marker::Model;

/// A column of a result.
#[derive(Debug, Drop)]
pub struct Head {
    /// The name in the header.
    pub name: Text,
    /// The kind of its values.
    pub kind: Kind,
}

/// The heads of the columns of a result, in order. Contracts see it as a list.
#[derive(Debug, Drop)]
pub struct Header {
    heads: Vec<Head>,
}

impl Model for Header {
    ghost use Rattle.std.specs.Prelude.{List};
    ghost use Rattle.qw_sink.specs.declared.sink.Head.{Head};

    ghost Value = { List Head };

    ghost view = { λ a. a.heads.items };
}

impl Header {
    /// The header of these heads.
    pub fn new(heads: Vec<Head>) -> Self
        ensures { result ≡ heads.items }
    {
        Header { heads }
    }

    /// The heads, in order.
    pub fn as_slice(&self) -> &[Head]
        ensures { result.now ≡ self.now }
    {
        self.heads.as_slice()
    }
}

/// The line before the header of so many rows.
pub(crate) fn headline(alloc: Global, number: usize, count: u64) -> Result<String, NoMemory>
    ensures { IfOk result (λ line. string_bytes line ≡ rows_line number count) }
{
    Ok(format!(in alloc; "QUERY {number} ROWS {count}\n")?)
}

/// A report with the part of a query that raised an exception: `QUERY k SQLSTATE c`.
pub fn with_exception(
    alloc: Global,
    report: Vec<u8>,
    number: usize,
    code: Code,
) -> Result<Vec<u8>, NoMemory>
    ensures { IfOk result (λ text. text.items ≡ report.items ++ report_of_exception number code) }
{
    let line = exception_line(alloc, number, code)?;
    with_line(report, line.as_str())
}

/// The line on a query that raised an exception.
fn exception_line(alloc: Global, number: usize, code: Code) -> Result<String, NoMemory>
    ensures { IfOk result (λ line. string_bytes line ≡ report_of_exception number code) }
{
    let state = sqlstate(code);
    Ok(format!(in alloc; "QUERY {number} SQLSTATE {state}\n")?)
}

/// The SQLSTATE of an exception (ISO/IEC 9075:1992, 22.1).
fn sqlstate(code: Code) -> &'static str
    ensures { result.now ≡ sqlstate code }
{
    match code {
        Code::DivZero => "22012",
        Code::OutOfRange => "22003",
    }
}

/// A report with the part of a query whose request for pages was past its limit: `QUERY k PAGES held asked limit`. It held so many
/// pages, and asked for so many more.
pub fn with_pages(
    alloc: Global,
    report: Vec<u8>,
    number: usize,
    held: u32,
    asked: u32,
    limit: u32,
) -> Result<Vec<u8>, NoMemory>
    ensures { IfOk result (λ text. text.items ≡ report.items ++ report_of_pages number held asked limit) }
{
    let line = pages_line(alloc, number, held, asked, limit)?;
    with_line(report, line.as_str())
}

/// The line on a query whose request for pages was past its limit.
fn pages_line(
    alloc: Global,
    number: usize,
    held: u32,
    asked: u32,
    limit: u32,
) -> Result<String, NoMemory>
    ensures { IfOk result (λ line. string_bytes line ≡ report_of_pages number held asked limit) }
{
    Ok(format!(in alloc; "QUERY {number} PAGES {held} {asked} {limit}\n")?)
}

/// A report with the part of a query that ran as many instructions as its limit says: `QUERY k STEPS limit`.
pub fn with_steps(
    alloc: Global,
    report: Vec<u8>,
    number: usize,
    limit: u64,
) -> Result<Vec<u8>, NoMemory>
    ensures { IfOk result (λ text. text.items ≡ report.items ++ report_of_steps number limit) }
{
    let line = steps_line(alloc, number, limit)?;
    with_line(report, line.as_str())
}

/// The line on a query that ran as many instructions as its limit says.
fn steps_line(alloc: Global, number: usize, limit: u64) -> Result<String, NoMemory>
    ensures { IfOk result (λ line. string_bytes line ≡ report_of_steps number limit) }
{
    Ok(format!(in alloc; "QUERY {number} STEPS {limit}\n")?)
}

/// A report with the counts of a query's instance: `STATS k STEPS n PAGES p`. It has run so many instructions, and holds so many pages.
pub fn with_counts(
    alloc: Global,
    report: Vec<u8>,
    number: usize,
    bench: &Bench,
    i: usize,
) -> Result<Vec<u8>, NoMemory>
    requires { i < length bench.now.shared.instances }
    ensures { IfOk result (λ text. text.items ≡ report.items ++ report_of_counts number (ran_in bench.now.shared i) (held_in bench.now.shared i)) }
{
    let line = counts_line(alloc, number, bench.steps(i), bench.pages(i))?;
    with_line(report, line.as_str())
}

/// The line on the counts of a query.
fn counts_line(alloc: Global, number: usize, steps: u64, pages: u32) -> Result<String, NoMemory>
    ensures { IfOk result (λ line. string_bytes line ≡ report_of_counts number steps pages) }
{
    Ok(format!(in alloc; "STATS {number} STEPS {steps} PAGES {pages}\n")?)
}

/// A text, and after it a line.
pub(crate) fn with_line(mut text: Vec<u8>, line: &str) -> Result<Vec<u8>, NoMemory>
    ensures { IfOk result (λ whole. whole.items ≡ text.items ++ line.now) }
{
    text.extend_from_slice(line.as_bytes())?;
    Ok(text)
}
