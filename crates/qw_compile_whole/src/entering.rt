//! The blocks of a grouped query with DISTINCT (ISO/IEC 9075:1992, 7.9): behind its groups the walk over them whose rows go into a second table, of all their
//! values, and the walk over that one, whose rows are the result.

ghost use Rattle.std.specs.Prelude.{◌≡◌, ◌≤◌, ◌+◌, ◌*◌, Some, IfOk, OnOk, length, map, sum_by};
ghost use Rattle.std.specs.List.{AllByRecursion};
ghost use Rattle.qw_types.specs.Value.{IsSized};
ghost use Rattle.qw_physical.specs.Coded.{operator_of, pipeline_of};
ghost use Rattle.qw_operator.specs.Takes.{CanCarry};
ghost use Rattle.qw_operator.specs.Grouping.{CanGroup, group_of};
ghost use Rattle.qw_group_pipeline.specs.Groups.{all_anywhere};
ghost use Rattle.qw_compile.specs.CourseSpan.{course_span};
ghost use Rattle.qw_compile.specs.Placed.{ArePlaced, CanPlace};
ghost use Rattle.qw_compile_whole.specs.DistinctPlaced.{CanEnter, EmitsDistinct, EmitsDistinctParts, EmitsEnter};
ghost use Rattle.qw_compile_whole.specs.GroupedDistinctLimits.{enter_span};
ghost use Rattle.qw_compile_whole.specs.GroupedLimits.{gathering_span, walk_span};
ghost use Rattle.qw_compile_whole.specs.GroupedPlaced.{CanGather, CanWalk, LastSelects, Selects, group_over};

use crate::gathering::{Begun, LastGroup, emit_front, emit_walk, last_group};
use qw_compile::bindings::bindings_of;
use qw_compile::courses::{Emitted, Places, behind};
use qw_compile::query_locals::directory;
use qw_expr::emitter::Emitter;
use qw_feed::rows::{begin_rows, finish};
use qw_group_pipeline::columns::GroupColumns;
use qw_group_pipeline::groups::emit_groups_into;
use qw_low::block::Block;
use qw_low::cell::Local;
use qw_module::instruction::ValType;
use qw_operator::group::Group;
use qw_physical::{Operator, Pipeline, Sink};
use qw_table::directory::emit_directory;
use qw_types::NoMemory;
use std::alloc::Global;

/// What is done at distinct rows: the columns of their table, all of its key, and what makes a row of each.
#[derive(Drop)]
pub struct Again {
    pub columns: GroupColumns,
    pub pipeline: Pipeline,
}

/// Adds the walk over the groups of a table, whose rows go into another one, and the types of its own locals, behind those before it.
fn emit_enter(
    alloc: Global,
    block: &mut Block,
    own: &mut Vec<ValType>,
    first: Local,
    places: &Places,
    table: usize,
    columns: &GroupColumns,
    operators: &[Operator],
    into: &Group,
) -> Result<(), NoMemory>
    requires placed { ArePlaced places.now first }
    requires table { table ≤ 8 }
    requires few { (length columns.now.key.items ≤ 1000) × (length columns.now.values.items ≤ 1000) }
    requires sized { AllByRecursion (λ c. IsSized c.ty) columns.now.key.items × AllByRecursion (λ c. IsSized c.ty) columns.now.values.items }
    requires can { CanEnter places.now columns.now.key.items columns.now.values.items (map operator_of operators.now) (group_of into.now) }
    ensures emits { OnOk result (EmitsEnter places.now first table columns.now.key.items columns.now.values.items (map operator_of operators.now) (group_of into.now) block.old.code.items block.new.code.items own.old.items own.new.items) }
    ensures short { OnOk result (length block.new.code.items + length own.new.items + 40 ≤ length block.old.code.items + length own.old.items + enter_span (length columns.now.key.items) (length columns.now.values.items) operators.now into.now) }
{
    let literals = bindings_of(
        alloc,
        &[],
        &places.literals,
        &places.texts,
        &places.constants,
    )?;
    let mut emitter = Emitter::new(alloc, behind(first, own)?);
    let _fields = emit_groups_into(
        alloc,
        &mut emitter,
        directory(table),
        columns,
        operators,
        into,
        literals,
    )?;
    block.append(&emitter.block)?;
    own.extend_from_slice(&emitter.own)?;
    Ok(())
}

/// The blocks of pipelines that build tables of joins, of the one behind them whose rows go into a table of groups, of the walk over the groups into a second
/// table, and of the walk over that one. Their own locals stand from `first` on. Where there is a local for it, the rows that go into groups are counted.
fn emit_distinct(
    alloc: Global,
    first: Local,
    places: &Places,
    pipelines: &[Pipeline],
    entry: usize,
    operators: &[Operator],
    group: &Group,
    guard: Option<Local>,
    columns: &GroupColumns,
    having: &[Operator],
    into: &Group,
    again: &Again,
) -> Result<Emitted, NoMemory>
    requires placed { ArePlaced places.now first }
    requires table { (group.now.table ≤ 8) × (into.now.table ≤ 8) × (length pipelines.now ≤ 8) }
    requires builds { AllByRecursion (λ p. CanPlace places.now (pipeline_of p)) pipelines.now }
    requires gathers { CanGather places.now entry (map operator_of operators.now) (group_of group.now) }
    requires few { (length columns.now.key.items ≤ 1000) × (length columns.now.values.items ≤ 1000) }
    requires sized { AllByRecursion (λ c. IsSized c.ty) columns.now.key.items × AllByRecursion (λ c. IsSized c.ty) columns.now.values.items }
    requires enters { CanEnter places.now columns.now.key.items columns.now.values.items (map operator_of having.now) (group_of into.now) }
    requires few_again { (length again.now.columns.key.items ≤ 1000) × (length again.now.columns.values.items ≤ 1000) }
    requires sized_again { AllByRecursion (λ c. IsSized c.ty) again.now.columns.key.items × AllByRecursion (λ c. IsSized c.ty) again.now.columns.values.items }
    requires walks { CanWalk places.now again.now.columns.key.items again.now.columns.values.items (pipeline_of again.now.pipeline) }
    ensures emits { IfOk result (λ made. EmitsDistinct guard places.now first (map pipeline_of pipelines.now) entry (map operator_of operators.now) (group_of group.now) columns.now.key.items columns.now.values.items (map operator_of having.now) (group_of into.now)
        again.now.columns.key.items again.now.columns.values.items (pipeline_of again.now.pipeline) made.block.code.items made.own.items made.kinds.items) }
    ensures short { IfOk result (λ made. length made.block.code.items + length made.own.items ≤ sum_by (course_span places.now.readers.items) pipelines.now + gathering_span places.now.readers.items entry operators.now group.now
        + enter_span (length columns.now.key.items) (length columns.now.values.items) having.now into.now + walk_span (length again.now.columns.key.items) (length again.now.columns.values.items) again.now.pipeline) }
{
    let Begun { mut block, mut own } = emit_front(
        alloc, first, places, pipelines, entry, operators, group, guard,
    )?;
    emit_directory(&mut block, directory(into.table))?;
    emit_enter(
        alloc,
        &mut block,
        &mut own,
        first,
        places,
        group.table,
        columns,
        having,
        into,
    )?;
    begin_rows(&mut block)?;
    let kinds = emit_walk(
        alloc,
        &mut block,
        &mut own,
        first,
        places,
        into.table,
        &again.columns,
        &again.pipeline,
    )?;
    finish(&mut block)?;
    Ok(Emitted { block, own, kinds })
}

/// The blocks of the pipelines of what reaches GROUP BY, of which all but the last build tables and the last makes rows of the grouped columns and of the
/// arguments of the set functions, of what is done at the groups of these rows, and of what is done at the distinct ones of the rows that this makes. Their own
/// locals stand from `first` on.
///
/// # Errors
///
/// [`NoMemory`] where memory does not suffice, or there are too many locals.
pub fn emit_distinct_parts(
    alloc: Global,
    first: Local,
    places: &Places,
    pipelines: Vec<Pipeline>,
    columns: &GroupColumns,
    behind: Pipeline,
    again: &Again,
) -> Result<Emitted, NoMemory>
    requires placed { ArePlaced places.now first }
    requires many { length pipelines.items ≤ 8 }
    requires can { AllByRecursion (λ p. CanPlace places.now (pipeline_of p)) pipelines.items }
    requires groups { LastSelects (λ items. CanGroup (group_over (length pipelines.items) columns.now.key.items columns.now.values.items items)) (map pipeline_of pipelines.items) }
    requires few { (length columns.now.key.items ≤ 1000) × (length columns.now.values.items ≤ 1000) }
    requires sized { AllByRecursion (λ c. IsSized c.ty) columns.now.key.items × AllByRecursion (λ c. IsSized c.ty) columns.now.values.items }
    requires enters { CanWalk places.now columns.now.key.items columns.now.values.items (pipeline_of behind) }
    requires few_again { (length again.now.columns.key.items ≤ 1000) × (length again.now.columns.values.items ≤ 1000) }
    requires sized_again { AllByRecursion (λ c. IsSized c.ty) again.now.columns.key.items × AllByRecursion (λ c. IsSized c.ty) again.now.columns.values.items }
    requires walks { CanWalk places.now again.now.columns.key.items again.now.columns.values.items (pipeline_of again.now.pipeline) }
    ensures emits { IfOk result (λ made. EmitsDistinctParts places.now first (map pipeline_of pipelines.items) columns.now.key.items columns.now.values.items (pipeline_of behind) again.now.columns.key.items again.now.columns.values.items (pipeline_of again.now.pipeline) made.block.code.items made.own.items made.kinds.items) }
    ensures short { Selects (λ items. length items ≡ length again.now.columns.key.items) (pipeline_of behind).sink →
        IfOk result (λ made. length made.block.code.items + length made.own.items ≤ sum_by (course_span places.now.readers.items) pipelines.items + 356 * (length columns.now.key.items + length columns.now.values.items)
        + walk_span (length columns.now.key.items) (length columns.now.values.items) behind + 356 * length again.now.columns.key.items + walk_span (length again.now.columns.key.items) (length again.now.columns.values.items) again.now.pipeline + 200) }
{
    let tables = pipelines.len();
    let Pipeline {
        operators: having,
        sink: shown,
        ..
    } = behind;
    let Sink::Select(items) = shown else {
        return Err(NoMemory);
    };
    let LastGroup {
        builders,
        entry,
        operators,
        group,
        guard,
    } = last_group(alloc, pipelines, columns.key.len(), &columns.values)?;
    let into = Group {
        table: tables,
        columns: items.len(),
        functions: Vec::new(alloc),
        values: items,
    };
    emit_distinct(
        alloc, first, places, &builders, entry, &operators, &group, guard, columns, &having, &into,
        again,
    )
}
