//! From a query, grouped or not, with DISTINCT or without, to its module.

ghost use Rattle.std.specs.Prelude.{◌≡◌, ◌≤◌, length, IfOk, IfErr};
ghost use Rattle.std.specs.List.{AllByRecursion, concat};
ghost use Rattle.qw_types.specs.Value.{IsSized};
ghost use Rattle.qw_types.specs.declared.schema.ColumnType as schema;
ghost use Rattle.qw_meaning.specs.Select as specified;
ghost use Rattle.qw_meaning.specs.Select.{entries_of};
ghost use Rattle.qw_grouped.specs.Whole.{sources_in};
ghost use Rattle.qw_grouped.specs.WholeQuery.{body_of, whole_of};
ghost use Rattle.qw_promise.specs.Compiled.{IsCompiled};
ghost use Rattle.qw_emit.specs.Alike.{AreAlike};
ghost use Rattle.qw_compile.specs.declared.compile.CompileFault.TheVariants as faults;
ghost use Rattle.qw_whole.specs.Layouts.{IsLayoutOf};
ghost use Rattle.qw_whole.specs.WholePromises.{promise_of_whole};
ghost use Rattle.qw_compile_whole.specs.ShortQueries.{IsShortWhole};
ghost use Rattle.qw_compile_whole.specs.WholeTexts.{texts_of_whole};

use crate::compile_groups::compile_groups;
use crate::compile_plain::compile_plain;
use qw_compile::compile::{CompileFault, Compiled};
use qw_grouped::whole::{Body, WholeQuery};
use std::alloc::Global;

/// The module that runs a query, and its layout, whose literals are the query's text literals: of one that isn't grouped those of each ON, of WHERE and of
/// the select list, in written order; of a grouped one those of the arguments of its set functions behind those of WHERE, and then those of HAVING and of
/// the select list. Its columns are those that the query names, each once, in the order in which they are first named, and behind them the first one of each entry of
/// FROM of which it names none.
///
/// # Errors
///
/// [`CompileFault::TooLong`] where more than 2^21 steps would be compiled, or as many locals, or the literals are too many or too long: never of a
/// query whose trees have at most 4,012 nodes, a column of GROUP BY counted as three, a set function as two beside its argument, and with DISTINCT each item
/// besides as three, of a grouped query as two, and whose text literals have at most 16,384 octets; [`CompileFault::NoMemory`] where memory does not suffice.
pub fn compile_whole(alloc: Global, query: &WholeQuery) -> Result<Compiled, CompileFault>
    requires some { AllByRecursion (λ (e : specified.Entry). 1 ≤ length e.columns) (entries_of (sources_in (body_of query.now.body))) }
    requires sized { AllByRecursion (λ (e : specified.Entry). AllByRecursion (λ (c : schema.ColumnType). IsSized c.ty) e.columns) (entries_of (sources_in (body_of query.now.body))) }
    requires alike { AreAlike (entries_of (sources_in (body_of query.now.body))) }
    ensures compiled { IfOk result (λ compiled. IsCompiled (promise_of_whole (whole_of query.now)) compiled.layout compiled.module) }
    ensures texts { IfOk result (λ compiled. compiled.layout.literals ≡ concat (texts_of_whole query.now)) }
    ensures layout { IfOk result (λ compiled. IsLayoutOf (whole_of query.now) compiled.layout) }
    ensures short { IsShortWhole query.now → IfErr result (λ fault. fault ≡ faults.NoMemory) }
{
    match &query.body {
        Body::Plain(plain) => compile_plain(alloc, plain, query.distinct),
        Body::Grouped(grouped) => compile_groups(alloc, grouped, query.distinct),
    }
}
