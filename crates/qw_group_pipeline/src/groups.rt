//! What is done at the groups of a table: each is met once, its row of the grouped table comes into locals, and goes on to HAVING and the select list.

ghost use Rattle.std.specs.Prelude.{◌≡◌, ◌≤◌, ◌+◌, ◌*◌, ◌<◌, ◌++◌, IfOk, OnOk, Some, length, map};
ghost use Rattle.std.specs.List.{AllByRecursion};
ghost use Rattle.qw_types.specs.Value.{IsSized};
ghost use Rattle.qw_scalar.specs.Typing.{kind_of};
ghost use Rattle.qw_expr.specs.Bindings.{IsServed, known_of};
ghost use Rattle.qw_expr.specs.Emits.{extent, free_of};
ghost use Rattle.qw_feed.specs.Cells.{kinds_of};
ghost use Rattle.qw_table.specs.Joins.{sources_of};
ghost use Rattle.qw_physical.specs.Coded.{operator_of, sink_of};
ghost use Rattle.qw_physical.specs.Physical as physical;
ghost use Rattle.qw_operator.specs.Carries.{result_kinds};
ghost use Rattle.qw_operator.specs.Span.{sink_span, span};
ghost use Rattle.qw_operator.specs.Takes.{CanCarry};
ghost use Rattle.qw_operator.specs.Grouping.{CanGroup, group_of, group_span};
ghost use Rattle.qw_group_pipeline.specs.Groups.{EmitsGroups, EmitsGroupsTo, Grouping, InEnd, all_anywhere};
ghost use Rattle.qw_group_pipeline.specs.Inner.Met.{IsMet};

use crate::columns::GroupColumns;
use crate::value::read_values;
use qw_expr::emitter::Emitter;
use qw_expr::known::Binding;
use qw_group::walk::emit_group_walk;
use qw_layout::row::{CELL_SIZE, KEY_OFFSET};
use qw_low::cell::Local;
use qw_module::instruction::ValType;
use qw_operator::end::{End, Ended};
use qw_operator::entry::read_entry;
use qw_operator::group::{Group, Place};
use qw_operator::locals::declare;
use qw_operator::operators::emit_operators;
use qw_physical::{Operator, Sink};
use qw_table::key::Field;
use qw_types::{Kind, NoMemory};
use std::alloc::Global;

/// What is done at a group, as far as it is emitted, and what is known there.
#[derive(Drop)]
struct Met {
    inner: Emitter,
    known: Vec<Binding>,
}

/// Begins what is done at a group, to whose entry the local before `first` leads: its key and the values of its set functions are read, and known beside what
/// was known before.
fn open_group(
    alloc: Global,
    first: Local,
    columns: &GroupColumns,
    known: Vec<Binding>,
) -> Result<Met, NoMemory>
    requires first { 1 ≤ first }
    requires few { (length columns.now.key.items ≤ 1000) × (length columns.now.values.items ≤ 1000) }
    requires sized { AllByRecursion (λ c. IsSized c.ty) columns.now.key.items × AllByRecursion (λ c. IsSized c.ty) columns.now.values.items }
    ensures { IfOk result (λ met. IsMet (known_of known.items) first columns.now.key.items columns.now.values.items met.inner (known_of met.known.items)) }
{
    let mut rest = known;
    let mut inner = Emitter::new(alloc, first);
    let entry = first - 1;
    let areas = KEY_OFFSET + CELL_SIZE * columns.key.len() as u32;
    let mut known = read_entry(alloc, &mut inner, entry, KEY_OFFSET, &columns.key)?;
    let mut values = read_values(alloc, &mut inner, entry, areas, &columns.values)?;
    known.append(&mut values)?;
    known.append(&mut rest)?;
    Ok(Met { inner, known })
}

/// Adds the block of a pipeline that begins at a table of groups, to whose directory a local leads: each group is met once, and its row of the grouped table
/// goes through operators, as HAVING is one, to the sink, where the literals of their expressions are known. It tells the kinds of the cells that the sink's
/// rows have in the result.
///
/// # Errors
///
/// [`NoMemory`] where memory does not suffice, or there are too many locals.
pub fn emit_groups(
    alloc: Global,
    emitter: &mut Emitter,
    directory: Local,
    columns: &GroupColumns,
    operators: &[Operator],
    sink: &Sink,
    literals: Vec<Binding>,
) -> Result<Vec<Kind>, NoMemory>
    requires few { (length columns.now.key.items ≤ 1000) × (length columns.now.values.items ≤ 1000) }
    requires sized { AllByRecursion (λ c. IsSized c.ty) columns.now.key.items × AllByRecursion (λ c. IsSized c.ty) columns.now.values.items }
    requires takes { CanCarry (all_anywhere columns.now.key.items columns.now.values.items ++ known_of literals.items) (map operator_of operators.now) (sink_of sink.now) }
    requires served { IsServed (free_of emitter.old) (known_of literals.items) }
    ensures emits { OnOk result (EmitsGroups (known_of literals.items) directory columns.now.key.items columns.now.values.items (map operator_of operators.now) (sink_of sink.now) emitter.old emitter.new) }
    ensures kinds { IfOk result (λ kinds. map Some kinds.items ≡ result_kinds (sink_of sink.now)) }
    ensures short { OnOk result (extent emitter.new ≤ extent emitter.old + (25 * length columns.now.key.items + 328 * length columns.now.values.items + span operators.now (sink_span sink.now) + 60)) }
{
    let count = declare(emitter, &[ValType::I32, ValType::I32])?;
    let Met { mut inner, known } = open_group(alloc, count + 2, columns, literals)?;
    let end = End::Sink(sink);
    let Ended { kinds, .. } = emit_operators(alloc, &mut inner, operators, end, known)?;
    emit_group_walk(alloc, &mut emitter.block, directory, count, &inner.block)?;
    emitter.own.extend_from_slice(&inner.own)?;
    Ok(kinds)
}

/// Adds the block of a pipeline that begins at a table of groups and goes into another one, as the rows behind HAVING do that are to be distinct: each group
/// is met once, and its row of the grouped table goes through operators, and is put into the group of its first values. It tells where the values are: the
/// key's fields, and behind them those of the arguments.
///
/// # Errors
///
/// [`NoMemory`] where memory does not suffice, or there are too many locals.
pub fn emit_groups_into(
    alloc: Global,
    emitter: &mut Emitter,
    directory: Local,
    columns: &GroupColumns,
    operators: &[Operator],
    group: &Group,
    literals: Vec<Binding>,
) -> Result<Vec<Field>, NoMemory>
    requires few { (length columns.now.key.items ≤ 1000) × (length columns.now.values.items ≤ 1000) }
    requires sized { AllByRecursion (λ c. IsSized c.ty) columns.now.key.items × AllByRecursion (λ c. IsSized c.ty) columns.now.values.items }
    requires takes { CanCarry (all_anywhere columns.now.key.items columns.now.values.items ++ known_of literals.items) (map operator_of operators.now) (physical.select (group_of group.now).values) }
    requires can { CanGroup (group_of group.now) }
    requires served { IsServed (free_of emitter.old) (known_of literals.items) }
    ensures emits { IfOk result (λ fields. EmitsGroupsTo (InEnd (Grouping fields.items (group_of group.now)) (map operator_of operators.now)) (known_of literals.items) directory columns.now.key.items columns.now.values.items emitter.old emitter.new) }
    ensures kinds { IfOk result (λ fields. kinds_of (sources_of fields.items) ≡ map kind_of (group_of group.now).values) }
    ensures short { OnOk result (extent emitter.new ≤ extent emitter.old + (25 * length columns.now.key.items + 328 * length columns.now.values.items + span operators.now (group_span group.now) + 60)) }
{
    let count = declare(emitter, &[ValType::I32, ValType::I32])?;
    let Met { mut inner, known } = open_group(alloc, count + 2, columns, literals)?;
    let end = End::Group(group, Place::Table, None);
    let Ended { fields, .. } = emit_operators(alloc, &mut inner, operators, end, known)?;
    emit_group_walk(alloc, &mut emitter.block, directory, count, &inner.block)?;
    emitter.own.extend_from_slice(&inner.own)?;
    Ok(fields)
}
