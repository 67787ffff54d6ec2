//! What reaches GROUP BY, as a query of its own.

ghost use Rattle.std.specs.Prelude.{◌≡◌, ◌++◌, IfOk, OnOk, map};
ghost use Rattle.qw_scalar.specs.Tree.{condition_of, expression_of};
ghost use Rattle.qw_meaning.specs.Query.{entry_of, joined_of, query_of, source_of};
ghost use Rattle.qw_grouped.specs.Grouped.{arguments_of, expression_of_column, front};
ghost use Rattle.qw_grouped.specs.Query.{function_of, grouped_of};

use crate::query::{GroupedColumn, GroupedQuery};
use crate::set_function::SetFunction;
use qw_meaning::query::{Entry, Joined, Query, Source};
use qw_scalar::copy;
use qw_scalar::expression::{Cond, Expr};
use qw_types::NoMemory;
use std::alloc::Global;

/// The query whose rows reach GROUP BY: of each row that FROM and WHERE leave, the values of the grouped columns and behind them those of
/// the arguments of the set functions.
///
/// # Errors
///
/// [`NoMemory`] where it does not fit memory, and nowhere else.
pub fn front_of(alloc: Global, query: &GroupedQuery) -> Result<Query, NoMemory>
    ensures { IfOk result (λ made. query_of made ≡ front (grouped_of query.now)) }
{
    let sources = copy_sources(alloc, query.sources())?;
    let conjuncts = copy_conditions(alloc, query.conjuncts())?;
    let mut items = Vec::new(alloc);
    add_columns(query.columns(), &mut items)?;
    add_arguments(alloc, query.functions(), &mut items)?;
    Ok(Query::new(sources, conjuncts, items))
}

/// Adds the grouped columns.
fn add_columns(columns: &[GroupedColumn], items: &mut Vec<Expr>) -> Result<(), NoMemory>
    ensures { OnOk result (map expression_of items.new.items ≡ map expression_of items.old.items ++ map expression_of_column columns.now) }
{
    for column in columns {
        items.push(Expr::Column(column.number, column.ty))?;
    }
    Ok(())
}

/// Adds the arguments of set functions.
fn add_arguments(
    alloc: Global,
    functions: &[SetFunction],
    items: &mut Vec<Expr>,
) -> Result<(), NoMemory>
    ensures { OnOk result (map expression_of items.new.items ≡ map expression_of items.old.items ++ arguments_of (map function_of functions.now)) }
{
    for function in functions {
        items.push(copy::expression(alloc, &function.argument)?)?;
    }
    Ok(())
}

/// Sources once more.
fn copy_sources(alloc: Global, sources: &[Source]) -> Result<Vec<Source>, NoMemory>
    ensures { IfOk result (λ all. map source_of all.items ≡ map source_of sources.now) }
{
    let mut all = Vec::new(alloc);
    for source in sources {
        all.push(copy_source(alloc, source)?)?;
    }
    Ok(all)
}

/// A source once more.
fn copy_source(alloc: Global, source: &Source) -> Result<Source, NoMemory>
    ensures { IfOk result (λ made. source_of made ≡ source_of source.now) }
{
    let first = copy_entry(alloc, &source.first)?;
    let joins = copy_joins(alloc, &source.joins)?;
    Ok(Source { first, joins })
}

/// Joins once more.
fn copy_joins(alloc: Global, joins: &[Joined]) -> Result<Vec<Joined>, NoMemory>
    ensures { IfOk result (λ all. map joined_of all.items ≡ map joined_of joins.now) }
{
    let mut all = Vec::new(alloc);
    for join in joins {
        all.push(copy_join(alloc, join)?)?;
    }
    Ok(all)
}

/// A join once more.
fn copy_join(alloc: Global, join: &Joined) -> Result<Joined, NoMemory>
    ensures { IfOk result (λ made. joined_of made ≡ joined_of join.now) }
{
    let entry = copy_entry(alloc, &join.entry)?;
    let on = copy_conditions(alloc, &join.on)?;
    Ok(Joined {
        entry,
        outer: join.outer,
        on,
    })
}

/// An entry once more.
fn copy_entry(alloc: Global, entry: &Entry) -> Result<Entry, NoMemory>
    ensures { IfOk result (λ made. entry_of made ≡ entry_of entry.now) }
{
    Ok(Entry {
        table: entry.table,
        columns: Vec::from_slice(alloc, &entry.columns)?,
    })
}

/// Conditions once more.
fn copy_conditions(alloc: Global, conditions: &[Cond]) -> Result<Vec<Cond>, NoMemory>
    ensures { IfOk result (λ all. map condition_of all.items ≡ map condition_of conditions.now) }
{
    let mut all = Vec::new(alloc);
    for condition in conditions {
        all.push(copy::condition(alloc, condition)?)?;
    }
    Ok(all)
}
