//! All rows as one group, where a query has set functions and no GROUP BY.

ghost use Rattle.std.specs.Prelude.{◌≡◌, ◌≤◌, ◌+◌, ◌*◌, ◌<◌, ◌^◌, ◌++◌, OnOk, length};
ghost use Rattle.qw_low.specs.Steps.{steps_of};
ghost use Rattle.qw_low.specs.Syntax.{Statement};
ghost use Rattle.qw_group.specs.Groups.{AreArgumentsBelow, ArgumentsUse, UpdatesAreas};
ghost use Rattle.qw_group.specs.Single.{Begins, Gathers, single_block};

use crate::aggregate::AREA_SIZE;
use crate::group::{Aggregate, push_areas};
use qw_feed::room::{FREE, LEFT, find_room};
use qw_low::block::Block;
use qw_low::cell::Local;
use qw_low::step::LowStep;
use qw_module::instruction::{Binary, Const, Op, ValType};
use qw_types::NoMemory;

/// Adds the steps that place so many octets, to which a local leads.
fn push_single(block: &mut Block, size: u32, areas: Local) -> Result<(), NoMemory>
    ensures { OnOk result (block.new.code.items ≡ block.old.code.items ++ steps_of (single_block size areas)) }
{
    find_room(block, size)?;
    block.code.extend_from_slice(&[
        LowStep::Op(Op::LocalGet(FREE)),
        LowStep::Op(Op::LocalSet(areas)),
        LowStep::Op(Op::LocalGet(FREE)),
        LowStep::Op(Op::Const(Const::I32(size))),
        LowStep::Op(Op::Binary(ValType::I32, Binary::Add)),
        LowStep::Op(Op::LocalSet(FREE)),
        LowStep::Op(Op::LocalGet(LEFT)),
        LowStep::Op(Op::Const(Const::I32(size))),
        LowStep::Op(Op::Binary(ValType::I32, Binary::Sub)),
        LowStep::Op(Op::LocalSet(LEFT)),
    ])?;
    Ok(())
}

/// Adds what places the areas of set functions that have taken nothing, to which a local leads, an i32.
///
/// # Errors
///
/// [`NoMemory`] where the steps don't fit memory.
pub fn emit_single_start(
    block: &mut Block,
    aggregates: &[Aggregate],
    areas: Local,
) -> Result<(), NoMemory>
    requires few { length aggregates.now ≤ 2000 }
    requires areas { 5 ≤ areas }
    ensures { OnOk result ((block.new.code.items ≡ block.old.code.items ++ steps_of (single_block (32 * length aggregates.now) areas)) × Begins areas aggregates.now (single_block (32 * length aggregates.now) areas)) }
{
    push_single(block, AREA_SIZE * aggregates.len() as u32, areas)
}

/// Adds what takes a row's arguments into these areas. The nine locals from `free` on are the block's own, as those of [`emit_aggregate`].
///
/// # Errors
///
/// [`NoMemory`] where the steps don't fit memory.
///
/// [`emit_aggregate`]: crate::aggregate::emit_aggregate
pub fn emit_single(
    block: &mut Block,
    aggregates: &[Aggregate],
    areas: Local,
    free: Local,
) -> Result<(), NoMemory>
    requires below { AreArgumentsBelow free aggregates.now }
    requires few { length aggregates.now ≤ 2000 }
    requires areas { areas < free }
    requires room { free + 8 < 2 ^ 32 }
    ensures { OnOk result ((a : Statement) × (block.new.code.items ≡ block.old.code.items ++ steps_of a) × UpdatesAreas areas 0 free aggregates.now a
        × (5 ≤ areas → ArgumentsUse free aggregates.now → Gathers areas aggregates.now free a)) }
{
    push_areas(block, aggregates, 0, areas, free)
}
