//! From the files of a run to the bench that was turned to its end.

ghost use Rattle.std.specs.Prelude.{◌≡◌, ◌≤◌, ◌⊎◌, length, map, replicate, IfOk, IfErr, OnOk};
ghost use Rattle.std.specs.List.{AllByRecursion, AllZip};
ghost use Rattle.qw_meaning.specs.Select.{AreOfEntries, entries_of};
ghost use Rattle.qw_grouped.specs.Whole.{sources_in};
ghost use Rattle.qw_types.specs.Limits.{most_tables};
ghost use Rattle.qw_linear.specs.Memory.{most_pages};
ghost use Rattle.qw_bench.specs.Bench.{IsColumnIn, IsStart, Program, rows_in_tables};
ghost use Rattle.qw_bench.specs.Standing.{AreLimits, AreTasksOf, total_pages as pages_in_all};
ghost use Rattle.qw_top.specs.Delivered.{HasRun};
ghost use Rattle.qw_top.specs.Inner.Queries.{IsJobOf, IsOver, asked_of};
ghost use Rattle.qw_top.specs.Inner.Stages.{AreContentsOf, FilesStop, HasAsked, StopsForPages, StopsToRun};
ghost use Rattle.qw_top.specs.Inner.Shelves.{HasRead, told_by};
ghost use Rattle.qw_top.specs.Inner.Stop.{failed_stop};
ghost use Rattle.qw_top.specs.Asking.{AsksWithin};
ghost use Rattle.qw_top.specs.Call.{IsRunLimit};
ghost use Rattle.qw_top.specs.Limits.{limits_of};
ghost use Rattle.qw_top.specs.Top.{Asked};
ghost use Rattle.qw_command_line.specs.Read.{names_of, options_of};

use super::inputs::{Prepared, prepare};
use super::program::job_of;
use crate::causes::Cause;
use crate::stop::{Stop, refused};
use qw_bench::bench::{Bench, BenchFault, Job, Limits};
use qw_command_line::command::{RunOptions, RunWords};
use qw_csv::Loaded;
use qw_io::Shelf;
use qw_typer::query::TypedQuery;
use qw_types::{NoMemory, Schema};
use std::alloc::Global;

/// The queries that were run, and the bench that was turned to its end.
#[derive(Drop)]
pub struct Turned {
    pub queries: Vec<TypedQuery>,
    pub bench: Bench,
}

/// Reads the files that the words name, and runs the queries over the tables.
///
/// # Errors
///
/// A refusal of a file, more pages than a memory has, the name of a file that couldn't be read, or want of memory.
pub fn run<'a, F: Shelf>(
    alloc: Global,
    names: &RunWords<'a>,
    files: &mut F,
) -> Result<Turned, Stop<'a>>
    ensures asked { IfOk result (λ run. HasAsked (limits_of (options_of names.now.options)) names.now.options.quantum (F.files files.old) (names_of names.now) (map asked_of run.queries.items) run.bench) }
    ensures stops { IfErr result (λ stop. FilesStop (limits_of (options_of names.now.options)) (F.files files.old) (names_of names.now) stop) }
    ensures shelf { HasRead (failed_stop result) (told_by F.Shelf files.old) (told_by F.Shelf files.new) }
    ensures within { AsksWithin (IsRunLimit (names_of names.now)) (F.watched files.old) (F.watched files.new) }
{
    let Prepared {
        schema,
        tables,
        queries,
    } = prepare(alloc, names, files)?;
    let bench = finished(alloc, &schema, tables, queries.as_slice(), names.options)?;
    Ok(Turned { queries, bench })
}

/// The bench of queries over loaded tables, after the turns that end them, by these options.
fn finished<'a>(
    alloc: Global,
    schema: &Schema,
    tables: Vec<Loaded>,
    queries: &[TypedQuery],
    options: RunOptions,
) -> Result<Bench, Stop<'a>>
    requires few { length schema.now ≤ most_tables }
    requires over { AllByRecursion (IsOver schema.now) queries.now }
    requires few_queries { length queries.now ≤ 64 }
    requires tables { AreContentsOf schema.now tables.items }
    requires read { AllByRecursion (λ (asked : Asked). AreOfEntries (entries_of (sources_in asked.whole.body)) (rows_in_tables tables.items)) (map asked_of queries.now) }
    ensures ran { IfOk result (λ bench. HasRun (limits_of (options_of options)) options.quantum tables.items (map asked_of queries.now) bench) }
    ensures stops { IfErr result (λ stop. StopsToRun (limits_of (options_of options)) tables.items (map asked_of queries.now) stop) }
{
    let jobs = jobs_of(alloc, schema, queries)?;
    let limits = Limits {
        pages: options.pages,
        steps: options.steps,
    };
    let mut bench = begun(alloc, tables, jobs, limits)?;
    bench.run_all(options.quantum);
    Ok(bench)
}

/// The bench of programs over loaded tables, each under these limits.
fn begun<'a>(
    alloc: Global,
    tables: Vec<Loaded>,
    jobs: Vec<Job>,
    limits: Limits,
) -> Result<Bench, Stop<'a>>
    requires few { length tables.items ≤ most_tables }
    requires few_jobs { length jobs.items ≤ 64 }
    requires limits { AreLimits limits }
    requires columns { AllByRecursion (λ (job : Program). AllByRecursion (IsColumnIn tables.items) job.layout.columns) jobs.items }
    ensures tasks { IfOk result (λ bench. AreTasksOf jobs.items (replicate (length jobs.items) limits) bench.tasks) }
    ensures start { IfOk result (λ bench. IsStart tables.items bench.tasks bench.shared) }
    ensures room { OnOk result (pages_in_all tables.items (replicate (length jobs.items) limits) ≤ most_pages) }
    ensures stops { IfErr result (λ stop. (stop ≡ Stop.NoMemory)
        ⊎ StopsForPages (pages_in_all tables.items (replicate (length jobs.items) limits)) stop) }
{
    let each = vec![in alloc; limits; jobs.len()].map_err(|_| Stop::NoMemory)?;
    match Bench::new(alloc, tables, jobs, &each) {
        Ok(bench) => Ok(bench),
        Err(BenchFault::NoMemory) => Err(Stop::NoMemory),
        Err(BenchFault::TotalPages { need }) => Err(refused(alloc, Cause::TotalPages(need))),
    }
}

/// The programs of queries over a schema, in order.
fn jobs_of(alloc: Global, schema: &Schema, queries: &[TypedQuery]) -> Result<Vec<Job>, NoMemory>
    requires { AllByRecursion (IsOver schema.now) queries.now }
    ensures { IfOk result (λ jobs. AllZip (IsJobOf schema.now) queries.now jobs.items) }
{
    let mut jobs = Vec::new(alloc);
    for query in queries {
        jobs.push(job_of(alloc, schema, query)?)?;
    }
    Ok(jobs)
}
