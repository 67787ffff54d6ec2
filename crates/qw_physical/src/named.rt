//! The numbers of the columns that trees name, from left to right.

ghost use Rattle.std.specs.Prelude.{◌≡◌, ◌++◌, IfOk, OnOk};
ghost use Rattle.std.specs.List.{flat_map};
ghost use Rattle.qw_physical.specs.Named.{columns_in, columns_of_join, columns_of_query, columns_of_source, columns_within};

use qw_leaves::columns::columns_of;
use qw_leaves::gather;
use qw_meaning::query::{Joined, Query, Source};
use qw_scalar::expression::{Cond, Expr};
use qw_types::NoMemory;
use std::alloc::Global;

/// The columns that a query names: of each ON in written order, of WHERE, and of the select list.
pub(crate) fn columns_named(alloc: Global, query: &Query) -> Result<Vec<usize>, NoMemory>
    ensures { IfOk result (λ columns. columns.items ≡ columns_of_query query.now) }
{
    let mut columns = Vec::new(alloc);
    from_sources(alloc, &mut columns, query.sources())?;
    from_conjuncts(alloc, &mut columns, query.conjuncts())?;
    from_items(alloc, &mut columns, query.items())?;
    Ok(columns)
}

/// Adds those of the joins of sources.
fn from_sources(alloc: Global, columns: &mut Vec<usize>, sources: &[Source]) -> Result<(), NoMemory>
    ensures { OnOk result (columns.new.items ≡ columns.old.items ++ flat_map columns_of_source sources.now) }
{
    for source in sources {
        from_joins(alloc, columns, &source.joins)?;
    }
    Ok(())
}

/// Adds those of joins.
fn from_joins(alloc: Global, columns: &mut Vec<usize>, joins: &[Joined]) -> Result<(), NoMemory>
    ensures { OnOk result (columns.new.items ≡ columns.old.items ++ flat_map columns_of_join joins.now) }
{
    for join in joins {
        from_conjuncts(alloc, columns, &join.on)?;
    }
    Ok(())
}

/// Adds those of conjuncts.
fn from_conjuncts(
    alloc: Global,
    columns: &mut Vec<usize>,
    conjuncts: &[Cond],
) -> Result<(), NoMemory>
    ensures { OnOk result (columns.new.items ≡ columns.old.items ++ flat_map columns_within conjuncts.now) }
{
    let mut leaves = Vec::new(alloc);
    gather::from_conjuncts(alloc, &mut leaves, conjuncts)?;
    let mut found = columns_of(alloc, &leaves)?;
    columns.append(&mut found)?;
    Ok(())
}

/// Adds those of a select list.
fn from_items(alloc: Global, columns: &mut Vec<usize>, items: &[Expr]) -> Result<(), NoMemory>
    ensures { OnOk result (columns.new.items ≡ columns.old.items ++ flat_map columns_in items.now) }
{
    let mut leaves = Vec::new(alloc);
    gather::from_items(alloc, &mut leaves, items)?;
    let mut found = columns_of(alloc, &leaves)?;
    columns.append(&mut found)?;
    Ok(())
}
