//! From the turned bench of a run to the written report.

ghost use Rattle.std.specs.Prelude.{◌≡◌, ◌≢◌, ◌<◌, ◌-◌, ◌^◌, ◌++◌, ℕ, List, length, map, false, IfOk, IsSome};
ghost use Rattle.qw_io.specs.Faults.{IsCounted};
ghost use Rattle.qw_bench.specs.Standing.{end_of};
ghost use Rattle.qw_bench.specs.Bench.{end_in, released_in};
ghost use Rattle.qw_top.specs.Delivered.{ShowsEnds, counts_line, ends_below, status_of_ends};
ghost use Rattle.qw_top.specs.Inner.Queries.{asked_of};
ghost use Rattle.qw_top.specs.Inner.Reports.{AreBlocks, IsBlock, status_with};
ghost use Rattle.qw_top.specs.Inner.Stages.{IsReport, Ran, Writes};

use super::header::header_of;
use super::run::Turned;
use crate::output::{end_of_write, write_whole};
use crate::status::Status;
use qw_bench::bench::{Bench, Ended};
use qw_io::Sink;
use qw_sink::ordered::with_ordered_rows;
use qw_sink::sink::{with_counts, with_exception, with_pages, with_steps};
use qw_typer::query::TypedQuery;
use qw_types::NoMemory;
use std::alloc::Global;

/// Writes the report of a bench that has run the queries of a run, with counts where these are asked for. At a fault a front of it
/// was taken.
pub fn deliver<O: Sink>(alloc: Global, run: &Turned, counts: bool, out: &mut O) -> Status
    requires { Ran (map asked_of run.now.queries.items) run.now.bench }
    ensures writes { (ran : Ran (map asked_of run.now.queries.items) run.now.bench) → (report : List ℕ)
        × ShowsEnds counts ran.tables (map asked_of run.now.queries.items) run.now.bench 0 report
        × Writes (status_of_ends (ends_below run.now.bench (length (map asked_of run.now.queries.items)))) result (O.taken out.old) (O.taken out.new) report }
    ensures fault { result ≡ Status.WriteFailed → IsCounted (O.faults out.old) (O.faults out.new) }
    ensures no_fault { result ≢ Status.WriteFailed → O.faults out.new ≡ O.faults out.old }
{
    let Ok(report) = report_of(alloc, run, counts) else {
        return Status::NoMemory;
    };
    end_of_write(write_whole(out, report.text.as_slice()), report.status)
}

/// What is reported of a run, and the status that it ends with where this is written.
#[derive(Drop)]
struct Report {
    text: Vec<u8>,
    status: Status,
}

/// The report of a bench that has run the queries of a run.
fn report_of(alloc: Global, run: &Turned, counts: bool) -> Result<Report, NoMemory>
    requires { Ran (map asked_of run.now.queries.items) run.now.bench }
    ensures { IfOk result (λ report. IsReport counts (map asked_of run.now.queries.items) run.now.bench report.text.items report.status) }
{
    let text = blocks_of(alloc, &run.bench, run.queries.as_slice(), counts)?;
    Ok(Report {
        text,
        status: status_of(&run.bench),
    })
}

/// The parts of the report, one for each query.
fn blocks_of(
    alloc: Global,
    bench: &Bench,
    queries: &[TypedQuery],
    counts: bool,
) -> Result<Vec<u8>, NoMemory>
    requires many { length queries.now ≡ length bench.now.shared.instances }
    requires ended { (k : ℕ) → k < length queries.now → IsSome (end_in bench.now.shared k) }
    requires held { (k : ℕ) → released_in bench.now.shared k ≡ false }
    ensures { IfOk result (λ text. AreBlocks counts (map asked_of queries.now) bench.now 0 text.items) }
{
    let mut text = Vec::new(alloc);
    for (k, query) in queries.iter().enumerate() {
        text = with_query(alloc, text, bench, k, query, counts)?;
    }
    Ok(text)
}

/// A report with the part of the query of the instance of this number, and the line on its counts where these are asked for.
fn with_query(
    alloc: Global,
    report: Vec<u8>,
    bench: &Bench,
    k: usize,
    query: &TypedQuery,
    counts: bool,
) -> Result<Vec<u8>, NoMemory>
    requires there { k < length bench.now.shared.instances }
    requires few { k < 2 ^ 64 - 1 }
    requires ended { IsSome (end_in bench.now.shared k) }
    requires held { released_in bench.now.shared k ≡ false }
    ensures { IfOk result (λ text. (block : List ℕ) × (text.items ≡ (report.items ++ block) ++ counts_line counts bench.now k)
        × IsBlock (asked_of query.now) bench.now k (end_in bench.now.shared k) block) }
{
    let report = with_block(alloc, report, bench, k, query)?;
    if counts {
        with_counts(alloc, report, k + 1, bench, k)
    } else {
        Ok(report)
    }
}

/// A report with the part of the query of the instance of this number.
fn with_block(
    alloc: Global,
    report: Vec<u8>,
    bench: &Bench,
    k: usize,
    query: &TypedQuery,
) -> Result<Vec<u8>, NoMemory>
    requires there { k < length bench.now.shared.instances }
    requires few { k < 2 ^ 64 - 1 }
    requires ended { IsSome (end_in bench.now.shared k) }
    requires held { released_in bench.now.shared k ≡ false }
    ensures { IfOk result (λ text. (block : List ℕ) × (text.items ≡ report.items ++ block) × IsBlock (asked_of query.now) bench.now k (end_in bench.now.shared k) block) }
{
    match bench.ended(k) {
        Some(Ended::Done) => {
            let header = header_of(alloc, query)?;
            let keys = query.keys.as_slice();
            with_ordered_rows(alloc, report, k + 1, header.as_slice(), keys, bench, k)
        }
        Some(Ended::Raised(code)) => with_exception(alloc, report, k + 1, code),
        Some(Ended::Pages { held, asked, limit }) => {
            with_pages(alloc, report, k + 1, held, asked, limit)
        }
        Some(Ended::Steps { limit }) => with_steps(alloc, report, k + 1, limit),
        None => unreachable!(),
    }
}

/// The status of a run whose instances ended so.
fn status_of(bench: &Bench) -> Status
    ensures { result ≡ status_of_ends (ends_below bench.now (length bench.now.shared.instances)) }
{
    let mut status = Status::Done;
    for k in 0..bench.len() {
        status = status_with(status, bench.ended(k));
    }
    status
}

/// The status with one end more.
fn status_with(status: Status, end: Option<Ended>) -> Status
    ensures { result ≡ status_with status (end_of end) }
{
    match (status, end) {
        (_, Some(Ended::Pages { .. })) | (Status::PageLimitMet, _) => Status::PageLimitMet,
        (_, Some(Ended::Steps { .. })) | (Status::StepLimitMet, _) => Status::StepLimitMet,
        (_, Some(Ended::Raised(_))) | (Status::Raised, _) => Status::Raised,
        (_, Some(Ended::Done)) | (_, None) => status,
    }
}
