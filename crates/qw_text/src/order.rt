//! Which of two texts comes first (ISO/IEC 9075:1992, 8.2): by their first octets that differ, and a text before each longer one that
//! begins with it.

ghost use Rattle.std.specs.Prelude.{◌≡◌, ◌+◌, ◌<◌, ◌^◌, ◌++◌, IfOk, OnOk, ◌≤◌, length};
ghost use Rattle.qw_low.specs.Syntax.{Statement};
ghost use Rattle.qw_low.specs.Steps.{steps_of};
ghost use Rattle.qw_text.specs.Texts.{Compares, SaysOrder, of_shorter};
ghost use Rattle.qw_text.specs.Inner.Blocks.{shorter_block, lengths_block, sign_block, order_block};

use crate::walk::push_walk;
use qw_low::block::Block;
use qw_low::cell::{Cell, Local};
use qw_low::step::LowStep;
use qw_module::instruction::{Binary, Conversion, Op, Relation, Sign, ValType};
use qw_types::NoMemory;

/// Adds the steps that leave the lesser of two lengths in a local.
fn push_shorter(block: &mut Block, left: Local, right: Local, to: Local) -> Result<(), NoMemory>
    ensures { OnOk result (block.new.code.items ≡ block.old.code.items ++ steps_of (shorter_block left right to)) }
{
    block.code.extend_from_slice(&[
        LowStep::Op(Op::LocalGet(left)),
        LowStep::Op(Op::LocalGet(right)),
        LowStep::Op(Op::Relation(ValType::I32, Relation::Lt(Sign::Unsigned))),
        LowStep::If,
        LowStep::Op(Op::LocalGet(left)),
        LowStep::Op(Op::LocalSet(to)),
        LowStep::Else,
        LowStep::Op(Op::LocalGet(right)),
        LowStep::Op(Op::LocalSet(to)),
        LowStep::End,
    ])?;
    Ok(())
}

/// Adds the steps that put the lengths in the place of octets that are the same.
fn push_lengths(block: &mut Block, left: Local, right: Local, free: Local) -> Result<(), NoMemory>
    requires { free + 3 < 2 ^ 32 }
    ensures { OnOk result (block.new.code.items ≡ block.old.code.items ++ steps_of (lengths_block left right free)) }
{
    block.code.extend_from_slice(&[
        LowStep::Op(Op::LocalGet(free + 2)),
        LowStep::Op(Op::LocalGet(free + 3)),
        LowStep::Op(Op::Relation(ValType::I64, Relation::Eq)),
        LowStep::If,
        LowStep::Op(Op::LocalGet(left)),
        LowStep::Op(Op::Convert(Conversion::Extend(Sign::Unsigned))),
        LowStep::Op(Op::LocalSet(free + 2)),
        LowStep::Op(Op::LocalGet(right)),
        LowStep::Op(Op::Convert(Conversion::Extend(Sign::Unsigned))),
        LowStep::Op(Op::LocalSet(free + 3)),
        LowStep::Else,
        LowStep::End,
    ])?;
    Ok(())
}

/// Adds the sign of a difference: 1, 0 or -1, in the third local.
fn push_sign(block: &mut Block, free: Local) -> Result<(), NoMemory>
    requires { free + 3 < 2 ^ 32 }
    ensures { OnOk result (block.new.code.items ≡ block.old.code.items ++ steps_of (sign_block free)) }
{
    block.code.extend_from_slice(&[
        LowStep::Op(Op::LocalGet(free + 2)),
        LowStep::Op(Op::LocalGet(free + 3)),
        LowStep::Op(Op::Relation(ValType::I64, Relation::Gt(Sign::Unsigned))),
        LowStep::Op(Op::LocalGet(free + 2)),
        LowStep::Op(Op::LocalGet(free + 3)),
        LowStep::Op(Op::Relation(ValType::I64, Relation::Lt(Sign::Unsigned))),
        LowStep::Op(Op::Binary(ValType::I32, Binary::Sub)),
        LowStep::Op(Op::Convert(Conversion::Extend(Sign::Signed))),
        LowStep::Op(Op::LocalSet(free + 2)),
    ])?;
    Ok(())
}

/// Adds the steps of an order.
fn push_order(block: &mut Block, left: Cell, right: Cell, free: Local) -> Result<(), NoMemory>
    requires { free + 3 < 2 ^ 32 }
    ensures { OnOk result (block.new.code.items ≡ block.old.code.items ++ steps_of (order_block left.value left.length right.value right.length free)) }
{
    push_shorter(block, left.length, right.length, free)?;
    push_walk(block, left.value, right.value, free)?;
    push_lengths(block, left.length, right.length, free)?;
    push_sign(block, free)
}

/// Adds the order of two texts, neither of them null, and tells the local that has it: an i64 below, at or above 0 as `left` comes before
/// `right`, is the same, or comes after it. Four locals from `free` on are the block's own.
pub fn emit_text_order(
    block: &mut Block,
    left: Cell,
    right: Cell,
    free: Local,
) -> Result<Local, NoMemory>
    requires left { (left.value < free) × (left.length < free) }
    requires right { (right.value < free) × (right.length < free) }
    requires room { free + 3 < 2 ^ 32 }
    ensures block { IfOk result (λ out. (a : Statement) × (block.new.code.items ≡ block.old.code.items ++ steps_of a)
        × Compares of_shorter (SaysOrder out) left right free a) }
    ensures place { IfOk result (λ out. out ≡ free + 2) }
    ensures short { OnOk result (length block.new.code.items ≤ length block.old.code.items + 100) }
{
    push_order(block, left, right, free)?;
    Ok(free + 2)
}
