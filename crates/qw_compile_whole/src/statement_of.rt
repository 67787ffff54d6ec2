//! From a grouped query to the steps of its module, with its locals and its layout: the passes of what reaches GROUP BY, and what is behind them; the same without
//! GROUP BY, and with DISTINCT.

ghost use Rattle.std.specs.Prelude.{◌≡◌, ◌≤◌, ◌+◌, [], length, IfOk, IfSome, IsSome};
ghost use Rattle.std.specs.List.{AllByRecursion};
ghost use Rattle.qw_types.specs.Value.{IsSized};
ghost use Rattle.qw_types.specs.declared.schema.ColumnType as schema;
ghost use Rattle.qw_meaning.specs.Select as specified;
ghost use Rattle.qw_meaning.specs.Select.{entries_of};
ghost use Rattle.qw_grouped.specs.Query.{grouped_of};
ghost use Rattle.qw_physical.specs.Coded.{pipeline_of};
ghost use Rattle.qw_physical.specs.Sizes.{size};
ghost use Rattle.qw_scalar.specs.Nodes.{nodes, nodes_of};
ghost use Rattle.qw_compile.specs.Limits.{keys_built, keys_sought, lookups};
ghost use Rattle.qw_compile_whole.specs.StatementOf.{IsStatementOf};
ghost use Rattle.qw_compile_whole.specs.WholeLimits.{IsShortGrouped};
ghost use Rattle.qw_compile_whole.specs.SingleOf.{IsSingleOf};
ghost use Rattle.qw_compile_whole.specs.DistinctOf.{IsAgain, IsDistinctOf};
ghost use Rattle.qw_compile_whole.specs.GroupColumns.{key_from};
ghost use Rattle.qw_compile_whole.specs.GroupedDistinctLimits.{IsShortGroupedDistinct};
ghost use Rattle.qw_compile_whole.specs.WholeDistinct as distinct;

use crate::distinct_columns::{behind_distinct, distinct_columns};
use crate::entering::Again;
use crate::grouped_passes::{GroupedPasses, grouped_passes};
use crate::statements::{distinct_statement_of, grouped_statement_of, single_statement_of};
use qw_compile::query_statement::QueryStatement;
use qw_grouped::query::GroupedQuery;
use qw_types::NoMemory;
use std::alloc::Global;

/// The statement of a grouped query's module. There is none where there are too many literals.
///
/// # Errors
///
/// [`NoMemory`] where memory does not suffice, or there are too many locals.
pub fn statement_of_grouped(
    alloc: Global,
    query: &GroupedQuery,
) -> Result<Option<QueryStatement>, NoMemory>
    requires some { AllByRecursion (λ (e : specified.Entry). 1 ≤ length e.columns) (entries_of (grouped_of query.now).sources) }
    requires sized { AllByRecursion (λ (e : specified.Entry). AllByRecursion (λ (c : schema.ColumnType). IsSized c.ty) e.columns) (entries_of (grouped_of query.now).sources) }
    ensures made { IfOk result (λ found. IfSome found (λ made. IsStatementOf query.now made.layout made.block.code.items made.locals.items)) }
    ensures there { IsShortGrouped query.now → IfOk result (λ found. IsSome found) }
    ensures short { IsShortGrouped query.now → IfOk result (λ found. IfSome found (λ made. length made.block.code.items ≤ 2097152)) }
    ensures few_locals { IsShortGrouped query.now → IfOk result (λ found. IfSome found (λ made. length made.locals.items ≤ 2097152)) }
{
    let GroupedPasses {
        columns,
        used,
        texts,
        pipelines,
        groups,
        behind,
    } = grouped_passes(alloc, query)?;
    let tables = pipelines.len();
    grouped_statement_of(
        alloc, tables, texts, pipelines, &groups, behind, &columns, used,
    )
}

/// The statement of the module of a query with set functions and no GROUP BY. There is none where there are too many literals.
///
/// # Errors
///
/// [`NoMemory`] where memory does not suffice, or there are too many locals.
pub fn statement_of_single(
    alloc: Global,
    query: &GroupedQuery,
) -> Result<Option<QueryStatement>, NoMemory>
    requires alone { query.now.columns ≡ [] }
    requires some { AllByRecursion (λ (e : specified.Entry). 1 ≤ length e.columns) (entries_of (grouped_of query.now).sources) }
    requires sized { AllByRecursion (λ (e : specified.Entry). AllByRecursion (λ (c : schema.ColumnType). IsSized c.ty) e.columns) (entries_of (grouped_of query.now).sources) }
    ensures made { IfOk result (λ found. IfSome found (λ made. IsSingleOf query.now made.layout made.block.code.items made.locals.items)) }
    ensures there { IsShortGrouped query.now → IfOk result (λ found. IsSome found) }
    ensures short { IsShortGrouped query.now → IfOk result (λ found. IfSome found (λ made. length made.block.code.items ≤ 2097152)) }
    ensures few_locals { IsShortGrouped query.now → IfOk result (λ found. IfSome found (λ made. length made.locals.items ≤ 2097152)) }
{
    let GroupedPasses {
        columns,
        used,
        texts,
        pipelines,
        groups,
        behind,
    } = grouped_passes(alloc, query)?;
    let tables = pipelines.len();
    single_statement_of(
        alloc,
        tables,
        texts,
        pipelines,
        &groups.values,
        behind,
        &columns,
        used,
    )
}

/// The statement of the module of a grouped query with DISTINCT. There is none where there are too many literals.
///
/// # Errors
///
/// [`NoMemory`] where memory does not suffice, or there are too many locals.
pub fn statement_of_distinct(
    alloc: Global,
    query: &GroupedQuery,
) -> Result<Option<QueryStatement>, NoMemory>
    requires some { AllByRecursion (λ (e : specified.Entry). 1 ≤ length e.columns) (entries_of (grouped_of query.now).sources) }
    requires sized { AllByRecursion (λ (e : specified.Entry). AllByRecursion (λ (c : schema.ColumnType). IsSized c.ty) e.columns) (entries_of (grouped_of query.now).sources) }
    ensures made { IfOk result (λ found. IfSome found (λ made. IsDistinctOf query.now made.layout made.block.code.items made.locals.items)) }
    ensures there { IsShortGroupedDistinct query.now → IfOk result (λ found. IsSome found) }
    ensures short { IsShortGroupedDistinct query.now → IfOk result (λ found. IfSome found (λ made. length made.block.code.items ≤ 2097152)) }
    ensures few_locals { IsShortGroupedDistinct query.now → IfOk result (λ found. IfSome found (λ made. length made.locals.items ≤ 2097152)) }
{
    let GroupedPasses {
        columns,
        used,
        texts,
        pipelines,
        groups,
        behind,
    } = grouped_passes(alloc, query)?;
    let again = again_of(alloc, query)?;
    let tables = pipelines.len() + 1;
    distinct_statement_of(
        alloc, tables, texts, pipelines, &groups, behind, &again, &columns, used,
    )
}

/// What is done at the distinct rows of a query's select list.
fn again_of(alloc: Global, query: &GroupedQuery) -> Result<Again, NoMemory>
    ensures key { IfOk result (λ made. made.columns.key.items ≡ key_from 0 (distinct.distinct_columns 0 (grouped_of query.now).items)) }
    ensures values { IfOk result (λ made. made.columns.values.items ≡ []) }
    ensures again { IfOk result (λ made. IsAgain (grouped_of query.now).items (pipeline_of made.pipeline)) }
    ensures alone { IfOk result (λ made. keys_sought made.pipeline + (keys_built made.pipeline + lookups made.pipeline) ≡ 0) }
    ensures shown { IfOk result (λ made. size nodes nodes_of made.pipeline ≡ length made.columns.key.items) }
{
    let columns = distinct_columns(alloc, query.items())?;
    let pipeline = behind_distinct(alloc, &columns.key)?;
    Ok(Again { columns, pipeline })
}
