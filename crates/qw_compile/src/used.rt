//! The columns of a query's layout: those that it reads, each of the table of its entry of FROM.

ghost use Rattle.std.specs.Prelude.{◌≡◌, ◌<◌, ◌++◌, ◌/◌, ◌%◌, List, Some, length, map, slice_get, IfOk, OnOk};
ghost use Rattle.std.specs.List.{AllByRecursion};
ghost use Rattle.qw_meaning.specs.Query.{query_of, source_of};
ghost use Rattle.qw_meaning.specs.Select as specified;
ghost use Rattle.qw_meaning.specs.Select.{entries_of};
ghost use Rattle.qw_meaning.specs.declared.query.Joined as joined;
ghost use Rattle.qw_physical.specs.Named.{IsDeclared, columns_of_entries, numbers};
ghost use Rattle.qw_compile.specs.UsedColumns.{AreUsedAt};

use crate::query_locals::PLACES;
use qw_map::layout::Used;
use qw_meaning::query::{Joined, Query, Source};
use qw_physical::ReadColumn;
use qw_types::NoMemory;
use std::alloc::Global;

/// The columns of tables that a query reads, one for each of `columns`, in their order.
///
/// # Errors
///
/// [`NoMemory`] where memory does not suffice, and nowhere else.
pub fn used_of(alloc: Global, query: &Query, columns: &[ReadColumn]) -> Result<Vec<Used>, NoMemory>
    requires declared { AllByRecursion (IsDeclared (columns_of_entries (entries_of (query_of query.now).sources))) columns.now }
    ensures { IfOk result (λ used. AreUsedAt (entries_of (query_of query.now).sources) (numbers columns.now) used.items) }
{
    let tables = tables_of(alloc, query.sources())?;
    let mut used = Vec::new(alloc);
    for column in columns {
        used.push(used_in(&tables, *column))?;
    }
    Ok(used)
}

/// The tables of the entries of FROM, from left to right.
fn tables_of(alloc: Global, sources: &[Source]) -> Result<Vec<usize>, NoMemory>
    ensures { IfOk result (λ tables. tables.items ≡ map (λ (e : specified.Entry). e.table) (entries_of (map source_of sources.now))) }
{
    let mut tables = Vec::new(alloc);
    for source in sources {
        tables.push(source.first.table)?;
        add_joined(&mut tables, &source.joins)?;
    }
    Ok(tables)
}

/// Adds those of the entries that are joined to one.
fn add_joined(tables: &mut Vec<usize>, joins: &[Joined]) -> Result<(), NoMemory>
    ensures { OnOk result (tables.new.items ≡ tables.old.items ++ map (λ (j : joined.Joined). j.entry.table) joins.now) }
{
    for join in joins {
        tables.push(join.entry.table)?;
    }
    Ok(())
}

/// A column, as one of the table of its entry.
fn used_in(tables: &[usize], column: ReadColumn) -> Used
    requires there { column.number / 64 < length tables.now }
    ensures table { slice_get tables.now (column.number / 64) ≡ Some result.table }
    ensures place { result.column ≡ column.number % 64 }
    ensures ty { result.ty ≡ column.ty }
    ensures not_null { result.not_null ≡ column.not_null }
{
    Used {
        table: tables[column.number / PLACES],
        column: column.number % PLACES,
        ty: column.ty,
        not_null: column.not_null,
    }
}
