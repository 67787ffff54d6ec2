//! Exact sums of 128 bits: two words in two locals, of which the low one comes first.

ghost use Rattle.std.specs.Prelude.{◌≡◌, ◌+◌, ◌-◌, ◌<◌, ◌^◌, ◌++◌, OnOk};
ghost use Rattle.qw_low.specs.Syntax.{Statement};
ghost use Rattle.qw_low.specs.Steps.{steps_of};
ghost use Rattle.qw_group.specs.Sums.{Accumulates, Fits};
ghost use Rattle.qw_group.specs.Inner.WideBlocks.{fit_block};
ghost use Rattle.qw_group.specs.Wides.{add_128_block};

use qw_low::block::Block;
use qw_low::cell::Local;
use qw_low::step::LowStep;
use qw_module::instruction::{Binary, Const, Conversion, Op, Relation, Sign, ValType};
use qw_types::NoMemory;
use qw_wide::arithmetic::GREATEST;

/// Adds the addition of the number in a local to the sum in two, the local `sum` and the one behind it. The local behind these is the block's own. All
/// four are i64.
///
/// # Errors
///
/// [`NoMemory`] where the steps don't fit memory.
pub fn emit_add128(block: &mut Block, sum: Local, number: Local) -> Result<(), NoMemory>
    requires { sum < 2 ^ 32 - 2 }
    ensures { OnOk result ((a : Statement) × (block.new.code.items ≡ block.old.code.items ++ steps_of a) × Accumulates sum number a) }
{
    push_add(block, sum, number)?;
    Ok(())
}

/// Adds the steps of an addition: the low words' sum is less than either where a 1 is carried.
pub(crate) fn push_add(block: &mut Block, n: Local, x: Local) -> Result<(), NoMemory>
    requires { n < 2 ^ 32 - 2 }
    ensures { OnOk result (block.new.code.items ≡ block.old.code.items ++ steps_of (add_128_block n x)) }
{
    block.code.extend_from_slice(&[
        LowStep::Op(Op::LocalGet(n)),
        LowStep::Op(Op::LocalGet(x)),
        LowStep::Op(Op::Binary(ValType::I64, Binary::Add)),
        LowStep::Op(Op::LocalSet(n + 2)),
        LowStep::Op(Op::LocalGet(n + 1)),
        LowStep::Op(Op::LocalGet(x)),
        LowStep::Op(Op::Const(Const::I64(63))),
        LowStep::Op(Op::Binary(ValType::I64, Binary::Shr(Sign::Signed))),
        LowStep::Op(Op::Binary(ValType::I64, Binary::Add)),
        LowStep::Op(Op::LocalGet(n + 2)),
        LowStep::Op(Op::LocalGet(n)),
        LowStep::Op(Op::Relation(ValType::I64, Relation::Lt(Sign::Unsigned))),
        LowStep::Op(Op::Convert(Conversion::Extend(Sign::Unsigned))),
        LowStep::Op(Op::Binary(ValType::I64, Binary::Add)),
        LowStep::Op(Op::LocalSet(n + 1)),
        LowStep::Op(Op::LocalGet(n + 2)),
        LowStep::Op(Op::LocalSet(n)),
    ])?;
    Ok(())
}

/// Adds what brings the sum in a local and the one behind it to a number in the first of them, or raises 2 where it has more than 18 digits.
///
/// # Errors
///
/// [`NoMemory`] where the steps don't fit memory.
pub fn emit_fit128(block: &mut Block, sum: Local) -> Result<(), NoMemory>
    requires { sum < 2 ^ 32 - 2 }
    ensures { OnOk result ((a : Statement) × (block.new.code.items ≡ block.old.code.items ++ steps_of a) × Fits sum a) }
{
    push_fit(block, sum)?;
    Ok(())
}

/// Adds the steps of both tests: the high word is the low one's sign, and the low one has at most 18 digits.
pub(crate) fn push_fit(block: &mut Block, n: Local) -> Result<(), NoMemory>
    requires { n < 2 ^ 32 - 2 }
    ensures { OnOk result (block.new.code.items ≡ block.old.code.items ++ steps_of (fit_block n)) }
{
    block.code.extend_from_slice(&[
        LowStep::Op(Op::LocalGet(n + 1)),
        LowStep::Op(Op::LocalGet(n)),
        LowStep::Op(Op::Const(Const::I64(63))),
        LowStep::Op(Op::Binary(ValType::I64, Binary::Shr(Sign::Signed))),
        LowStep::Op(Op::Relation(ValType::I64, Relation::Ne)),
        LowStep::If,
        LowStep::Raise(2),
        LowStep::Else,
        LowStep::End,
        LowStep::Op(Op::Const(Const::I64(2 * GREATEST))),
        LowStep::Op(Op::LocalGet(n)),
        LowStep::Op(Op::Const(Const::I64(GREATEST))),
        LowStep::Op(Op::Binary(ValType::I64, Binary::Add)),
        LowStep::Op(Op::Relation(ValType::I64, Relation::Lt(Sign::Unsigned))),
        LowStep::If,
        LowStep::Raise(2),
        LowStep::Else,
        LowStep::End,
    ])?;
    Ok(())
}
