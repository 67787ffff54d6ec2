//! Whether two texts are the same (ISO/IEC 9075:1992, 8.2).

ghost use Rattle.std.specs.Prelude.{◌≡◌, ◌+◌, ◌<◌, ◌^◌, ◌++◌, IfOk, OnOk, ◌≤◌, length};
ghost use Rattle.qw_low.specs.Syntax.{Statement};
ghost use Rattle.qw_low.specs.Steps.{steps_of};
ghost use Rattle.qw_text.specs.Texts.{Compares, SaysSame, of_left};
ghost use Rattle.qw_text.specs.Inner.Blocks.{equality_block};

use crate::walk::push_walk;
use qw_low::block::Block;
use qw_low::cell::{Cell, Local};
use qw_low::step::LowStep;
use qw_module::instruction::{Const, Op, Relation, ValType};
use qw_types::NoMemory;

/// Adds the steps of an equality.
fn push_equality(block: &mut Block, left: Cell, right: Cell, free: Local) -> Result<(), NoMemory>
    requires { free + 3 < 2 ^ 32 }
    ensures { OnOk result (block.new.code.items ≡ block.old.code.items ++ steps_of (equality_block left.value left.length right.value right.length free)) }
{
    block.code.extend_from_slice(&[
        LowStep::Op(Op::LocalGet(left.length)),
        LowStep::Op(Op::LocalGet(right.length)),
        LowStep::Op(Op::Relation(ValType::I32, Relation::Eq)),
        LowStep::If,
        LowStep::Op(Op::LocalGet(left.length)),
        LowStep::Op(Op::LocalSet(free)),
    ])?;
    push_walk(block, left.value, right.value, free)?;
    block.code.extend_from_slice(&[
        LowStep::Op(Op::LocalGet(free + 2)),
        LowStep::Op(Op::LocalGet(free + 3)),
        LowStep::Op(Op::Relation(ValType::I64, Relation::Eq)),
        LowStep::Op(Op::LocalSet(free)),
        LowStep::Else,
        LowStep::Op(Op::Const(Const::I32(0))),
        LowStep::Op(Op::LocalSet(free)),
        LowStep::End,
    ])?;
    Ok(())
}

/// Adds a test of two texts, neither of them null, and tells the local that has the answer: an i32, 1 where they are the same and else 0.
/// Texts of unlike lengths are told apart without a look at their octets. Four locals from `free` on are the block's own.
pub fn emit_text_eq(
    block: &mut Block,
    left: Cell,
    right: Cell,
    free: Local,
) -> Result<Local, NoMemory>
    requires left { (left.value < free) × (left.length < free) }
    requires right { (right.value < free) × (right.length < free) }
    requires room { free + 3 < 2 ^ 32 }
    ensures block { IfOk result (λ out. (a : Statement) × (block.new.code.items ≡ block.old.code.items ++ steps_of a)
        × Compares of_left (SaysSame out) left right free a) }
    ensures place { IfOk result (λ out. out ≡ free) }
    ensures short { OnOk result (length block.new.code.items ≤ length block.old.code.items + 100) }
{
    push_equality(block, left, right, free)?;
    Ok(free)
}
