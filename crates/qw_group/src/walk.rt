//! Each group of a table is met once.

ghost use Rattle.std.specs.Prelude.{◌≡◌, ◌≤◌, ◌+◌, ◌<◌, ◌^◌, ◌++◌, OnOk, List};
ghost use Rattle.qw_low.specs.Steps.{steps_of};
ghost use Rattle.qw_low.specs.Syntax.{Statement};
ghost use Rattle.qw_table.specs.declared.key.Field.{Field};
ghost use Rattle.qw_group.specs.Walks.{Walks, groups_walk_block};
ghost use Rattle.qw_group.specs.declared.group.Aggregate.{Aggregate};

use qw_low::block::Block;
use qw_low::cell::Local;
use qw_low::step::LowStep;
use qw_module::instruction::{Binary, Const, Op, ValType};
use qw_table::directory::DIRECTORY_SIZE;
use qw_table::probe::emit_walk;
use qw_types::NoMemory;
use std::alloc::Global;

/// The octets of a slot.
const SLOT_SIZE: u32 = 4;

/// Adds `found` for each entry of a table of groups, to whose directory a local leads: the local behind `count` leads to the entry. These two are the
/// block's own, both i32; slots are met from the last one on.
///
/// # Errors
///
/// [`NoMemory`] where the steps don't fit memory.
pub fn emit_group_walk(
    alloc: Global,
    block: &mut Block,
    directory: Local,
    count: Local,
    found: &Block,
) -> Result<(), NoMemory>
    requires { count + 1 < 2 ^ 32 }
    ensures block { OnOk result ((b : Statement) → found.now.code.items ≡ steps_of b → block.new.code.items ≡ block.old.code.items ++ steps_of (groups_walk_block directory count b)) }
    ensures walks { OnOk result ((b : Statement) (key : List Field) (aggregates : List Aggregate) → (5 ≤ directory) × (directory < count) → Walks directory key aggregates count b (groups_walk_block directory count b)) }
{
    let every = Block::new(alloc);
    let mut always = Block::new(alloc);
    always.push(LowStep::Op(Op::Const(Const::I32(1))))?;
    block.code.extend_from_slice(&[
        LowStep::Op(Op::Const(Const::I32(DIRECTORY_SIZE))),
        LowStep::Op(Op::LocalSet(count)),
        LowStep::Op(Op::LocalGet(count)),
        LowStep::If,
        LowStep::Loop,
        LowStep::Op(Op::LocalGet(count)),
        LowStep::Op(Op::Const(Const::I32(SLOT_SIZE))),
        LowStep::Op(Op::Binary(ValType::I32, Binary::Sub)),
        LowStep::Op(Op::LocalSet(count)),
    ])?;
    emit_walk(block, directory, count, count + 1, &every, &always, found)?;
    block.code.extend_from_slice(&[
        LowStep::Op(Op::LocalGet(count)),
        LowStep::Again,
        LowStep::End,
        LowStep::End,
    ])?;
    Ok(())
}
