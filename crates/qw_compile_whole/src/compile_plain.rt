//! From a query that isn't grouped, with DISTINCT or without, to its module.

ghost use Rattle.std.specs.Prelude.{◌≡◌, ◌≤◌, length, IfOk, IfErr};
ghost use Rattle.std.specs.List.{AllByRecursion, concat};
ghost use Rattle.qw_types.specs.Value.{IsSized};
ghost use Rattle.qw_types.specs.declared.schema.ColumnType as schema;
ghost use Rattle.qw_meaning.specs.Query.{query_of};
ghost use Rattle.qw_meaning.specs.Select as specified;
ghost use Rattle.qw_meaning.specs.Select.{entries_of};
ghost use Rattle.qw_grouped.specs.Whole as asked;
ghost use Rattle.qw_promise.specs.Compiled.{IsCompiled};
ghost use Rattle.qw_emit.specs.Alike.{AreAlike};
ghost use Rattle.qw_compile.specs.WrittenTexts.{texts_of_query};
ghost use Rattle.qw_compile.specs.declared.compile.CompileFault.TheVariants as faults;
ghost use Rattle.qw_whole.specs.Layouts.{IsLayoutOf};
ghost use Rattle.qw_whole.specs.WholePromises.{promise_of_whole};
ghost use Rattle.qw_compile_whole.specs.DistinctLimits.{IsShortPlain};

use crate::finish::finish;
use crate::plain_distinct::statement_of_plain_distinct;
use qw_compile::compile::{CompileFault, Compiled, compile};
use qw_meaning::query::Query;
use qw_types::value_order_laws::order_laws;
use std::alloc::Global;

/// The module that runs a query that isn't grouped, and its layout: its columns are those that the query reads, its literals the query's texts. With DISTINCT each
/// row of the select list goes into a hash table of all its values, and the walk over that one makes the result (ISO/IEC 9075:1992, 7.9).
///
/// # Errors
///
/// Those of `compile` of `qw_compile`; with DISTINCT an item of the select list counts as three nodes more.
pub(crate) fn compile_plain(
    alloc: Global,
    query: &Query,
    distinct: bool,
) -> Result<Compiled, CompileFault>
    requires some { AllByRecursion (λ (e : specified.Entry). 1 ≤ length e.columns) (entries_of (query_of query.now).sources) }
    requires sized { AllByRecursion (λ (e : specified.Entry). AllByRecursion (λ (c : schema.ColumnType). IsSized c.ty) e.columns) (entries_of (query_of query.now).sources) }
    requires alike { AreAlike (entries_of (query_of query.now).sources) }
    ensures compiled { IfOk result (λ compiled. IsCompiled (promise_of_whole (record { body = asked.plain (query_of query.now); distinct = distinct })) compiled.layout compiled.module) }
    ensures texts { IfOk result (λ compiled. compiled.layout.literals ≡ concat (texts_of_query query.now)) }
    ensures layout { IfOk result (λ compiled. IsLayoutOf (record { body = asked.plain (query_of query.now); distinct = distinct }) compiled.layout) }
    ensures short { IsShortPlain distinct query.now → IfErr result (λ fault. fault ≡ faults.NoMemory) }
{
    if distinct {
        // For the proof alone: the bounds need that equal keys are equal rows.
        order_laws();
        let made = statement_of_plain_distinct(alloc, query)?;
        finish(alloc, made)
    } else {
        compile(alloc, query)
    }
}
