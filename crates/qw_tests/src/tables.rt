//! Tables, files and benches that several tests use.

ghost use Rattle.std.specs.Prelude.{◌≤◌, IfOk, IsTrue};
ghost use Rattle.std.specs.List.{AllByRecursion};
ghost use Rattle.qw_bench.specs.Standing.{AreLimits};
ghost use Rattle.qw_top.specs.Inner.Queries.{IsOver};
ghost use Rattle.qw_top.specs.Inner.Stages.{AreContentsOf, IsContentsOf};

use qw_bench::bench::{Bench, BenchFault, Ended, Limits, MAX_JOBS, MAX_STEPS};
use qw_csv::Loaded;
use qw_csv::loading::{LoadFault, load};
use qw_io::{MemoryShelf, MemorySink, NamedFile, Shelf, Sink};
use qw_linear::linear::{Linear, MAX_PAGES};
use qw_top::status::Status;
use qw_top::top::program::job_of;
use qw_top::top::queries::queries_of;
use qw_top::top::qwasm;
use qw_typer::query::TypedQuery;
use qw_types::schema::MAX_TABLES;
use qw_types::{Schema, Table};
use std::alloc::{AllocError, Global};
use std::test::Fail;

/// Limits that no test meets by them.
pub const DEFAULT_LIMITS: Limits = Limits {
    pages: 128,
    steps: MAX_STEPS,
};

/// The words of a run over the files of a `shelf`.
pub const WORDS: [&str; 4] = ["run", "s", "d", "q"];

/// The file of a table: a header, and so many times the same record.
pub fn file_of(
    alloc: Global,
    header: &[u8],
    record: &[u8],
    rows: usize,
) -> Result<Vec<u8>, AllocError> {
    let mut bytes = Vec::from_slice(alloc, header)?;
    for _ in 0..rows {
        bytes.extend_from_slice(record)?;
    }
    Ok(bytes)
}

/// The file of a table of one column and so many rows of 7.
pub fn sevens(alloc: Global, rows: usize) -> Result<Vec<u8>, AllocError> {
    file_of(alloc, b"A\n", b"7\n", rows)
}

/// A file of a shelf.
pub fn file(alloc: Global, name: &str, bytes: &[u8]) -> Result<NamedFile, AllocError> {
    Ok(NamedFile {
        name: String::from_str(alloc, name)?,
        bytes: Vec::from_slice(alloc, bytes)?,
    })
}

/// A schema file `s`, the file of a table T in a folder `d`, and a queries file `q`, on a shelf that gives at most
/// seven octets a call.
pub fn shelf(
    alloc: Global,
    schema: &[u8],
    table: &[u8],
    query: &[u8],
) -> Result<MemoryShelf, AllocError> {
    let mut files = vec![in alloc; file(alloc, "s", schema)?, file(alloc, "q", query)?]?;
    files.push(file(alloc, "d/t.csv", table)?)?;
    Ok(MemoryShelf::new(files, 7, Vec::new(alloc)))
}

/// The words of a command line.
pub fn words(alloc: Global, texts: &[&str]) -> Result<Vec<String>, AllocError> {
    let mut words = Vec::new(alloc);
    for text in texts {
        words.push(String::from_str(alloc, text)?)?;
    }
    Ok(words)
}

/// A bench of the queries of a script over the file of a schema's one table, each under its limits, before its first turn; or why
/// there is none.
pub fn bench_over(
    alloc: Global,
    schema: &Schema,
    file: &[u8],
    script: &[u8],
    limits: &[Limits],
) -> Result<Result<Bench, BenchFault>, Fail> {
    let tables = tables_of(alloc, schema, file)?;
    let queries = queries_of(alloc, schema, script)?;
    bench_of_queries(alloc, schema, tables, queries.as_slice(), limits)
}

/// The same over the files of a schema's two tables.
pub fn bench_over_two(
    alloc: Global,
    schema: &Schema,
    (first, second): (&[u8], &[u8]),
    script: &[u8],
    limits: &[Limits],
) -> Result<Result<Bench, BenchFault>, Fail> {
    let tables = two_tables_of(alloc, schema, first, second)?;
    let queries = queries_of(alloc, schema, script)?;
    bench_of_queries(alloc, schema, tables, queries.as_slice(), limits)
}

fn tables_of(alloc: Global, schema: &Schema, file: &[u8]) -> Result<Vec<Loaded>, Fail>
    ensures { IfOk result (λ tables. AreContentsOf schema.now tables.items) }
{
    let [table] = schema.as_slice() else {
        return Err("not one table".into());
    };
    let loaded = loaded_of(alloc, table, file)?;
    Ok(vec![in alloc; loaded]?)
}

fn two_tables_of(
    alloc: Global,
    schema: &Schema,
    first_file: &[u8],
    second_file: &[u8],
) -> Result<Vec<Loaded>, Fail>
    ensures { IfOk result (λ tables. AreContentsOf schema.now tables.items) }
{
    let [first, second] = schema.as_slice() else {
        return Err("not two tables".into());
    };
    let first = loaded_of(alloc, first, first_file)?;
    let second = loaded_of(alloc, second, second_file)?;
    Ok(vec![in alloc; first, second]?)
}

fn loaded_of(alloc: Global, table: &Table, file: &[u8]) -> Result<Loaded, LoadFault>
    ensures { IfOk result (λ loaded. IsContentsOf table.now loaded) }
{
    load(alloc, table, file)
}

fn bench_of_queries(
    alloc: Global,
    schema: &Schema,
    tables: Vec<Loaded>,
    queries: &[TypedQuery],
    limits: &[Limits],
) -> Result<Result<Bench, BenchFault>, Fail>
    requires over { AllByRecursion (IsOver schema.now) queries.now }
    requires tables { AreContentsOf schema.now tables.items }
{
    let mut jobs = Vec::new(alloc);
    for query in queries {
        jobs.push(job_of(alloc, schema, query)?)?;
    }
    if tables.len() > MAX_TABLES || jobs.len() > MAX_JOBS || jobs.len() != limits.len() {
        return Err("too many, or not a limit for each".into());
    }
    if !are_limits(limits) {
        return Err("limits out of range".into());
    }
    Ok(Bench::new(alloc, tables, jobs, limits))
}

fn are_limits(limits: &[Limits]) -> bool
    ensures { IsTrue result → AllByRecursion AreLimits limits.now }
{
    match limits {
        [] => true,
        [one, others @ ..] => is_limit(*one) && are_limits(others),
    }
}

fn is_limit(one: Limits) -> bool
    ensures { IsTrue result → AreLimits one }
{
    1 <= one.pages && one.pages <= MAX_PAGES && 1 <= one.steps && one.steps <= MAX_STEPS
}

/// A sink that takes at most so many octets a call.
pub fn sink(alloc: Global, greatest: usize) -> MemorySink
    requires { 1 ≤ greatest }
{
    MemorySink::new(alloc, greatest, Vec::new(alloc))
}

/// What a call of the program with these words came to: its end, and the bench.
pub fn call<F: Shelf, O: Sink>(
    alloc: Global,
    files: &mut F,
    texts: &[&str],
    out: &mut O,
    notes: &mut MemorySink,
) -> Result<(Status, Option<Bench>), AllocError> {
    let words = words(alloc, texts)?;
    let mut kept = None;
    let status = qwasm(alloc, words.as_slice(), files, out, notes, &mut kept);
    Ok((status, kept))
}

/// The first address from which a memory has other octets than these.
pub fn differs(memory: &Linear, octets: &[(u64, [u8; 8])]) -> Option<u64> {
    for (address, expected) in octets {
        if memory.load64(*address) != Some(u64::from_le_bytes(*expected)) {
            return Some(*address);
        }
    }
    None
}

/// How the first instance of a bench ended, and how many instructions it ran.
pub fn end_of(bench: &Bench) -> (Option<Ended>, u64) {
    if bench.len() == 0 {
        return (None, 0);
    }
    (bench.ended(0), bench.steps(0))
}
