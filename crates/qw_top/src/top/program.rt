//! The modules that queries are compiled to.

ghost use Rattle.std.specs.Prelude.{List, IfOk};
ghost use Rattle.std.specs.List.{AllByRecursion};
ghost use Rattle.qw_types.specs.Contents.{Contents};
ghost use Rattle.qw_types.specs.Schema.{AreColumns};
ghost use Rattle.qw_types.specs.declared.schema.Table.{Table};
ghost use Rattle.qw_promise.specs.Compiled.{IsCompiled};
ghost use Rattle.qw_whole.specs.Layouts.{IsLayoutOf};
ghost use Rattle.qw_whole.specs.WholePromises.{promise_of_whole};
ghost use Rattle.qw_bench.specs.Bench.{IsColumnIn};
ghost use Rattle.qw_top.specs.Inner.Queries.{IsJobOf, IsOver, asked_of};
ghost use Rattle.qw_top.specs.Inner.Stages.{AreContentsOf};

use qw_bench::bench::Job;
use qw_compile::compile::{CompileFault, Compiled};
use qw_compile_whole::compile_whole::compile_whole;
use qw_typer::query::TypedQuery;
use qw_types::{NoMemory, Schema};
use qw_valid::valid::{ValidFault, validate};
use std::alloc::Global;

/// The module of a query over a schema, with its layout, whose columns are of the tables of the query's FROM. A query that a script takes
/// is never too long to be compiled.
///
/// # Errors
///
/// [`NoMemory`] where memory does not suffice.
pub fn compiled(alloc: Global, schema: &Schema, query: &TypedQuery) -> Result<Compiled, NoMemory>
    requires { IsOver schema.now query.now }
    ensures compiled { IfOk result (λ made. IsCompiled (promise_of_whole (asked_of query.now).whole) made.layout made.module) }
    ensures layout { IfOk result (λ made. IsLayoutOf (asked_of query.now).whole made.layout) }
    ensures columns { IfOk result (λ made. (tables : List Contents) → AreContentsOf schema.now tables → AllByRecursion (IsColumnIn tables) made.layout.columns) }
{
    limits_kept(schema);
    match compile_whole(alloc, &query.query) {
        Ok(compiled) => Ok(compiled),
        Err(CompileFault::NoMemory) => Err(NoMemory),
        Err(CompileFault::TooLong) => unreachable!(),
    }
}

/// For its clause, which each table tells of its own columns: those of all tables keep the limits that the compiler asks for.
fn limits_kept(schema: &Schema)
    ensures { AllByRecursion (λ (table : Table). AreColumns table.columns) schema.now }
{
    for table in schema.as_slice() {
        table.columns.as_slice();
    }
}

/// The program of a query over a schema. A compiled module is valid, so it is refused for want of memory alone.
///
/// # Errors
///
/// [`NoMemory`] where memory does not suffice.
pub fn job_of(alloc: Global, schema: &Schema, query: &TypedQuery) -> Result<Job, NoMemory>
    requires { IsOver schema.now query.now }
    ensures { IfOk result (λ job. IsJobOf schema.now query.now job) }
{
    let compiled = compiled(alloc, schema, query)?;
    match validate(alloc, compiled.module) {
        Ok(valid) => Ok(Job::new(valid, compiled.layout)),
        Err(ValidFault::NoMemory) => Err(NoMemory),
        Err(ValidFault::Part(_)) => unreachable!(),
        Err(ValidFault::Body { .. }) => unreachable!(),
    }
}
