//! What reaches GROUP BY, as a query of its own (ISO/IEC 9075:1992, 7.7), with as many nodes and the same texts as its parts.

ghost use Rattle.std.specs.Prelude.{◌≡◌, ◌+◌, ◌++◌, IfOk, OnOk, length, map, sum_by};
ghost use Rattle.std.specs.List.{flat_map};
ghost use Rattle.qw_scalar.specs.Texts.{texts_in, texts_within};
ghost use Rattle.qw_scalar.specs.Nodes.{nodes, nodes_of};
ghost use Rattle.qw_scalar.specs.Tree.{condition_of, expression_of};
ghost use Rattle.qw_meaning.specs.Query.{entry_of, joined_of, query_of, source_of};
ghost use Rattle.qw_algebra.specs.Sizes.{query_size, tests_in, tests_on};
ghost use Rattle.qw_grouped.specs.Grouped.{arguments_of, expression_of_column, front};
ghost use Rattle.qw_grouped.specs.Query.{function_of, grouped_of};
ghost use Rattle.qw_grouped.specs.declared.set_function.SetFunction as coded;
ghost use Rattle.qw_compile.specs.WrittenTexts.{texts_of_query};
ghost use Rattle.qw_compile_whole.specs.WholeLimits.{front_size};
ghost use Rattle.qw_compile_whole.specs.WholeTexts.{argument_texts, front_texts};

use qw_grouped::query::{GroupedColumn, GroupedQuery};
use qw_grouped::set_function::SetFunction;
use qw_meaning::query::{Entry, Joined, Query, Source};
use qw_scalar::copy;
use qw_scalar::expression::{Cond, Expr};
use qw_types::NoMemory;
use std::alloc::Global;

/// The query whose rows reach GROUP BY: of each row that FROM and WHERE leave, the values of the grouped columns and behind them those of the arguments of
/// the set functions.
///
/// # Errors
///
/// [`NoMemory`] where it does not fit memory, and nowhere else.
pub fn front_of(alloc: Global, query: &GroupedQuery) -> Result<Query, NoMemory>
    ensures front { IfOk result (λ made. query_of made ≡ front (grouped_of query.now)) }
    ensures nodes { IfOk result (λ made. query_size nodes nodes_of made ≡ front_size nodes nodes_of query.now + length query.now.columns) }
    ensures texts { IfOk result (λ made. texts_of_query made ≡ front_texts query.now) }
{
    let sources = copy_sources(alloc, query.sources())?;
    let conjuncts = copy_conditions(alloc, query.conjuncts())?;
    let mut items = Vec::new(alloc);
    add_columns(query.columns(), &mut items)?;
    add_arguments(alloc, query.functions(), &mut items)?;
    Ok(Query::new(sources, conjuncts, items))
}

/// Adds the grouped columns.
fn add_columns(columns: &[GroupedColumn], items: &mut Vec<Expr>) -> Result<(), NoMemory>
    ensures same { OnOk result (map expression_of items.new.items ≡ map expression_of items.old.items ++ map expression_of_column columns.now) }
    ensures nodes { OnOk result (sum_by nodes items.new.items ≡ sum_by nodes items.old.items + length columns.now) }
    ensures texts { OnOk result (flat_map texts_in items.new.items ≡ flat_map texts_in items.old.items) }
{
    for column in columns {
        items.push(Expr::Column(column.number, column.ty))?;
    }
    Ok(())
}

/// Adds the arguments of set functions.
fn add_arguments(
    alloc: Global,
    functions: &[SetFunction],
    items: &mut Vec<Expr>,
) -> Result<(), NoMemory>
    ensures same { OnOk result (map expression_of items.new.items ≡ map expression_of items.old.items ++ arguments_of (map function_of functions.now)) }
    ensures nodes { OnOk result (sum_by nodes items.new.items ≡ sum_by nodes items.old.items + sum_by (λ (f : coded.SetFunction). nodes f.argument) functions.now) }
    ensures texts { OnOk result (flat_map texts_in items.new.items ≡ flat_map texts_in items.old.items ++ argument_texts functions.now) }
{
    for function in functions {
        items.push(copy::expression(alloc, &function.argument)?)?;
    }
    Ok(())
}

/// Sources once more.
fn copy_sources(alloc: Global, sources: &[Source]) -> Result<Vec<Source>, NoMemory>
    ensures same { IfOk result (λ all. map source_of all.items ≡ map source_of sources.now) }
    ensures nodes { IfOk result (λ all. map nodes_of (tests_on all.items) ≡ map nodes_of (tests_on sources.now)) }
    ensures texts { IfOk result (λ all. map texts_within (tests_on all.items) ≡ map texts_within (tests_on sources.now)) }
{
    let mut all = Vec::new(alloc);
    for source in sources {
        all.push(copy_source(alloc, source)?)?;
    }
    Ok(all)
}

/// A source once more.
fn copy_source(alloc: Global, source: &Source) -> Result<Source, NoMemory>
    ensures same { IfOk result (λ made. source_of made ≡ source_of source.now) }
    ensures nodes { IfOk result (λ made. map nodes_of (tests_in made.joins.items) ≡ map nodes_of (tests_in source.now.joins.items)) }
    ensures texts { IfOk result (λ made. map texts_within (tests_in made.joins.items) ≡ map texts_within (tests_in source.now.joins.items)) }
{
    let first = copy_entry(alloc, &source.first)?;
    let joins = copy_joins(alloc, &source.joins)?;
    Ok(Source { first, joins })
}

/// Joins once more.
fn copy_joins(alloc: Global, joins: &[Joined]) -> Result<Vec<Joined>, NoMemory>
    ensures same { IfOk result (λ all. map joined_of all.items ≡ map joined_of joins.now) }
    ensures nodes { IfOk result (λ all. map nodes_of (tests_in all.items) ≡ map nodes_of (tests_in joins.now)) }
    ensures texts { IfOk result (λ all. map texts_within (tests_in all.items) ≡ map texts_within (tests_in joins.now)) }
{
    let mut all = Vec::new(alloc);
    for join in joins {
        all.push(copy_join(alloc, join)?)?;
    }
    Ok(all)
}

/// A join once more.
fn copy_join(alloc: Global, join: &Joined) -> Result<Joined, NoMemory>
    ensures same { IfOk result (λ made. joined_of made ≡ joined_of join.now) }
    ensures nodes { IfOk result (λ made. map nodes_of made.on.items ≡ map nodes_of join.now.on.items) }
    ensures texts { IfOk result (λ made. map texts_within made.on.items ≡ map texts_within join.now.on.items) }
{
    let entry = copy_entry(alloc, &join.entry)?;
    let on = copy_conditions(alloc, &join.on)?;
    Ok(Joined {
        entry,
        outer: join.outer,
        on,
    })
}

/// An entry once more.
fn copy_entry(alloc: Global, entry: &Entry) -> Result<Entry, NoMemory>
    ensures { IfOk result (λ made. entry_of made ≡ entry_of entry.now) }
{
    Ok(Entry {
        table: entry.table,
        columns: Vec::from_slice(alloc, &entry.columns)?,
    })
}

/// Conditions once more.
fn copy_conditions(alloc: Global, conditions: &[Cond]) -> Result<Vec<Cond>, NoMemory>
    ensures same { IfOk result (λ all. map condition_of all.items ≡ map condition_of conditions.now) }
    ensures nodes { IfOk result (λ all. map nodes_of all.items ≡ map nodes_of conditions.now) }
    ensures texts { IfOk result (λ all. map texts_within all.items ≡ map texts_within conditions.now) }
{
    let mut all = Vec::new(alloc);
    for condition in conditions {
        all.push(copy::condition(alloc, condition)?)?;
    }
    Ok(all)
}
