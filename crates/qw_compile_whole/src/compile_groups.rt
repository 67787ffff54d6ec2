//! From a grouped query, with GROUP BY or without, with DISTINCT or without, to its module.

ghost use Rattle.std.specs.Prelude.{◌≡◌, ◌≤◌, length, IfOk, IfErr};
ghost use Rattle.std.specs.List.{AllByRecursion, concat};
ghost use Rattle.qw_types.specs.Value.{IsSized};
ghost use Rattle.qw_types.specs.declared.schema.ColumnType as schema;
ghost use Rattle.qw_meaning.specs.Select as specified;
ghost use Rattle.qw_meaning.specs.Select.{entries_of};
ghost use Rattle.qw_grouped.specs.Query.{grouped_of};
ghost use Rattle.qw_grouped.specs.Whole as asked;
ghost use Rattle.qw_promise.specs.Compiled.{IsCompiled};
ghost use Rattle.qw_emit.specs.Alike.{AreAlike};
ghost use Rattle.qw_compile.specs.declared.compile.CompileFault.TheVariants as faults;
ghost use Rattle.qw_whole.specs.Layouts.{IsLayoutOf};
ghost use Rattle.qw_whole.specs.WholePromises.{promise_of_whole};
ghost use Rattle.qw_compile_whole.specs.GroupedDistinctLimits.{IsShortGroups};
ghost use Rattle.qw_compile_whole.specs.WholeTexts.{texts_of_grouped};

use crate::finish::finish;
use crate::statement_of::{statement_of_distinct, statement_of_grouped, statement_of_single};
use qw_compile::compile::{CompileFault, Compiled};
use qw_grouped::query::GroupedQuery;
use qw_types::value_order_laws::order_laws;
use std::alloc::Global;

/// The module that runs a grouped query, and its layout: its columns are those that what reaches GROUP BY reads, its literals the query's texts. Set functions count
/// and sum fewer than 10^18 rows, which is all that two entries of FROM can bring; of more entries no run that ends meets as many. With DISTINCT the rows that HAVING
/// and the select list make of the groups go into a second hash table, of all their values, and the walk over that one makes the result. Without GROUP BY all rows
/// are one group, also where there is no row, and DISTINCT changes nothing, since the result has at most one row (ISO/IEC 9075:1992, 7.8, 7.9).
///
/// # Errors
///
/// [`CompileFault::TooLong`] where more than 2^21 steps would be compiled, or as many locals, or the literals are too many or too long: never of a short query, with
/// DISTINCT of one that is short with each item of the select list counted as two nodes more; [`CompileFault::NoMemory`] where memory does not suffice.
pub(crate) fn compile_groups(
    alloc: Global,
    query: &GroupedQuery,
    distinct: bool,
) -> Result<Compiled, CompileFault>
    requires some { AllByRecursion (λ (e : specified.Entry). 1 ≤ length e.columns) (entries_of (grouped_of query.now).sources) }
    requires sized { AllByRecursion (λ (e : specified.Entry). AllByRecursion (λ (c : schema.ColumnType). IsSized c.ty) e.columns) (entries_of (grouped_of query.now).sources) }
    requires alike { AreAlike (entries_of (grouped_of query.now).sources) }
    ensures compiled { IfOk result (λ compiled. IsCompiled (promise_of_whole (record { body = asked.grouped (grouped_of query.now); distinct = distinct })) compiled.layout compiled.module) }
    ensures texts { IfOk result (λ compiled. compiled.layout.literals ≡ concat (texts_of_grouped query.now)) }
    ensures layout { IfOk result (λ compiled. IsLayoutOf (record { body = asked.grouped (grouped_of query.now); distinct = distinct }) compiled.layout) }
    ensures short { IsShortGroups distinct query.now → IfErr result (λ fault. fault ≡ faults.NoMemory) }
{
    // For the proof alone: the bounds need that equal keys are equal rows.
    order_laws();
    // That a grouped query is typed within its limits is known where a part of it is taken.
    let _sources = query.sources();
    if query.columns().is_empty() {
        let single = statement_of_single(alloc, query)?;
        finish(alloc, single)
    } else if distinct {
        let entered = statement_of_distinct(alloc, query)?;
        finish(alloc, entered)
    } else {
        let grouped = statement_of_grouped(alloc, query)?;
        finish(alloc, grouped)
    }
}
