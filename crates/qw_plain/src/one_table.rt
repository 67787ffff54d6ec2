//! A specification over one table as a query.

ghost use Rattle.std.specs.Prelude.{◌≡◌, [], IfOk, map};
ghost use Rattle.qw_scalar.specs.Tree.{condition_of, expression_of};
ghost use Rattle.qw_meaning.specs.Query.{query_of, source_of};
ghost use Rattle.qw_meaning.specs.Select.{alone, specification_of};

use qw_meaning::Select;
use qw_meaning::query::{Entry, Query, Source};
use qw_scalar::copy;
use qw_scalar::expression::{Cond, Expr};
use qw_types::NoMemory;
use std::alloc::Global;

/// The query whose FROM is the specification's table.
pub(crate) fn query_of_one(alloc: Global, select: &Select) -> Result<Query, NoMemory>
    ensures { IfOk result (λ query. query_of query ≡ specification_of select.now) }
{
    let sources = vec![in alloc; source(alloc, select)?]?;
    let conjuncts = conditions(alloc, select.conjuncts())?;
    let items = expressions(alloc, select.items())?;
    Ok(Query::new(sources, conjuncts, items))
}

/// The specification's table as a source.
fn source(alloc: Global, select: &Select) -> Result<Source, NoMemory>
    ensures { IfOk result (λ source. source_of source ≡ alone (record { table = select.now.table; columns = select.now.columns })) }
{
    Ok(Source {
        first: Entry {
            table: select.table(),
            columns: Vec::from_slice(alloc, select.columns())?,
        },
        joins: Vec::new(alloc),
    })
}

/// Conditions once more.
fn conditions(alloc: Global, conjuncts: &[Cond]) -> Result<Vec<Cond>, NoMemory>
    ensures { IfOk result (λ all. map condition_of all.items ≡ map condition_of conjuncts.now) }
{
    let mut all = Vec::new(alloc);
    for conjunct in conjuncts {
        all.push(copy::condition(alloc, conjunct)?)?;
    }
    Ok(all)
}

/// Expressions once more.
fn expressions(alloc: Global, items: &[Expr]) -> Result<Vec<Expr>, NoMemory>
    ensures { IfOk result (λ all. map expression_of all.items ≡ map expression_of items.now) }
{
    let mut all = Vec::new(alloc);
    for item in items {
        all.push(copy::expression(alloc, item)?)?;
    }
    Ok(all)
}
