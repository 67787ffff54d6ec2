//! From a query with DISTINCT that isn't grouped to the steps of its module, with its locals and its layout: the passes of the query, whose last rows go into a table
//! of groups over all their columns, and what makes a row of each of its keys.

ghost use Rattle.std.specs.Prelude.{◌≤◌, length, IfOk, IfSome, IsSome};
ghost use Rattle.std.specs.List.{AllByRecursion};
ghost use Rattle.qw_types.specs.Value.{IsSized};
ghost use Rattle.qw_types.specs.declared.schema.ColumnType as schema;
ghost use Rattle.qw_meaning.specs.Query.{query_of};
ghost use Rattle.qw_meaning.specs.Select as specified;
ghost use Rattle.qw_meaning.specs.Select.{entries_of};
ghost use Rattle.qw_compile_whole.specs.DistinctLimits.{IsShortDistinct};
ghost use Rattle.qw_compile_whole.specs.PlainDistinctOf.{IsPlainDistinctOf};

use crate::distinct_columns::{behind_distinct, distinct_columns};
use crate::statements::grouped_statement_of;
use qw_compile::compile::columns_of;
use qw_compile::passes::pipelines_of;
use qw_compile::query_statement::QueryStatement;
use qw_compile::used::used_of;
use qw_compile::written_texts::written_texts;
use qw_meaning::query::Query;
use qw_types::NoMemory;
use qw_types::value_order_laws::order_laws;
use std::alloc::Global;

/// The statement of the module of a query with DISTINCT. There is none where there are too many literals.
///
/// # Errors
///
/// [`NoMemory`] where memory does not suffice, or there are too many locals.
pub fn statement_of_plain_distinct(
    alloc: Global,
    query: &Query,
) -> Result<Option<QueryStatement>, NoMemory>
    requires some { AllByRecursion (λ (e : specified.Entry). 1 ≤ length e.columns) (entries_of (query_of query.now).sources) }
    requires sized { AllByRecursion (λ (e : specified.Entry). AllByRecursion (λ (c : schema.ColumnType). IsSized c.ty) e.columns) (entries_of (query_of query.now).sources) }
    ensures made { IfOk result (λ found. IfSome found (λ made. IsPlainDistinctOf query.now made.layout made.block.code.items made.locals.items)) }
    ensures there { IsShortDistinct query.now → IfOk result (λ found. IsSome found) }
    ensures short { IsShortDistinct query.now → IfOk result (λ found. IfSome found (λ made. length made.block.code.items ≤ 2097152)) }
    ensures few_locals { IsShortDistinct query.now → IfOk result (λ found. IfSome found (λ made. length made.locals.items ≤ 2097152)) }
{
    // For the proof alone: rows that go into groups are told by keys, of which equal ones are equal rows.
    order_laws();
    let columns = columns_of(alloc, query)?;
    let used = used_of(alloc, query, &columns.read)?;
    let texts = written_texts(alloc, query)?;
    let pipelines = pipelines_of(alloc, query, &columns.kept)?;
    let groups = distinct_columns(alloc, query.items())?;
    let behind = behind_distinct(alloc, &groups.key)?;
    let tables = pipelines.len();
    grouped_statement_of(
        alloc,
        tables,
        texts,
        pipelines,
        &groups,
        behind,
        &columns.read,
        used,
    )
}
