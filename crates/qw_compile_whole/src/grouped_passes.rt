//! The passes of a grouped query: the pipelines of what reaches GROUP BY, what is behind them, and the columns and texts that these rest on.

ghost use Rattle.std.specs.Prelude.{◌≤◌, length, IfOk};
ghost use Rattle.std.specs.List.{AllByRecursion};
ghost use Rattle.qw_types.specs.Value.{IsSized};
ghost use Rattle.qw_types.specs.declared.schema.ColumnType as schema;
ghost use Rattle.qw_meaning.specs.Select as specified;
ghost use Rattle.qw_meaning.specs.Select.{entries_of};
ghost use Rattle.qw_grouped.specs.Query.{grouped_of};
ghost use Rattle.qw_compile_whole.specs.GroupedPasses.{AreGroupedPasses};

use crate::behind::behind_of;
use crate::front::front_of;
use crate::group_columns::group_columns;
use crate::whole_texts::grouped_texts;
use qw_compile::compile::{Columns, columns_of};
use qw_compile::passes::pipelines_of;
use qw_compile::used::used_of;
use qw_group_pipeline::columns::GroupColumns;
use qw_grouped::query::GroupedQuery;
use qw_map::layout::Used;
use qw_physical::{Pipeline, ReadColumn};
use qw_types::value_order_laws::order_laws;
use qw_types::{NoMemory, Text};
use std::alloc::Global;

/// What the statement of a grouped query is made of.
#[derive(Drop)]
pub(crate) struct GroupedPasses {
    /// The columns that what reaches GROUP BY reads.
    pub(crate) columns: Vec<ReadColumn>,
    /// Their places in the layout.
    pub(crate) used: Vec<Used>,
    /// The texts of the query.
    pub(crate) texts: Vec<Text>,
    /// The pipelines of what reaches GROUP BY.
    pub(crate) pipelines: Vec<Pipeline>,
    /// The columns of the grouped table.
    pub(crate) groups: GroupColumns,
    /// HAVING and the select list.
    pub(crate) behind: Pipeline,
}

/// The passes of a grouped query.
///
/// # Errors
///
/// [`NoMemory`] where memory does not suffice, or there are too many locals.
pub(crate) fn grouped_passes(alloc: Global, query: &GroupedQuery) -> Result<GroupedPasses, NoMemory>
    requires some { AllByRecursion (λ (e : specified.Entry). 1 ≤ length e.columns) (entries_of (grouped_of query.now).sources) }
    requires sized { AllByRecursion (λ (e : specified.Entry). AllByRecursion (λ (c : schema.ColumnType). IsSized c.ty) e.columns) (entries_of (grouped_of query.now).sources) }
    ensures { IfOk result (λ made. AreGroupedPasses query.now made) }
{
    // For the proof alone: rows that go into groups are told by keys, of which equal ones are equal rows.
    order_laws();
    // That a grouped query is typed within its limits is known where a part of it is taken.
    let _sources = query.sources();
    let front = front_of(alloc, query)?;
    let Columns { kept, read } = columns_of(alloc, &front)?;
    let used = used_of(alloc, &front, &read)?;
    let texts = grouped_texts(alloc, &front, query)?;
    let pipelines = pipelines_of(alloc, &front, &kept)?;
    let groups = group_columns(alloc, query)?;
    let behind = behind_of(alloc, query)?;
    Ok(GroupedPasses {
        columns: read,
        used,
        texts,
        pipelines,
        groups,
        behind,
    })
}
