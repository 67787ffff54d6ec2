//! The average of values, by their exact sum and their number.

ghost use Rattle.std.specs.Prelude.{◌≡◌, ◌+◌, ◌-◌, ◌<◌, ◌^◌, ◌++◌, OnOk};
ghost use Rattle.qw_low.specs.Syntax.{Statement, assign, binop, conditional, local, raise, relop, seq, skip};
ghost use Rattle.qw_module.specs.declared.instruction.ValType.TheVariants.{I64};
ghost use Rattle.qw_module.specs.declared.instruction.Sign.TheVariants.{Unsigned};
ghost use Rattle.qw_module.specs.declared.instruction.Binary.TheVariants.{Sub};
ghost use Rattle.qw_module.specs.declared.instruction.Relation.TheVariants.{Le, Lt};
ghost use Rattle.qw_group.specs.Wides.{i64};
ghost use Rattle.qw_low.specs.Steps.{steps_of};
ghost use Rattle.qw_group.specs.Sums.{Averages};
ghost use Rattle.qw_group.specs.Inner.WideBlocks.{average_block, averaging_block, digit_block, digits_block, digit_turns, opposite_128};

use crate::quotient::push_quotient;
use qw_low::block::Block;
use qw_low::cell::Local;
use qw_low::step::LowStep;
use qw_module::instruction::{Binary, Const, Conversion, Division, Op, Relation, Sign, ValType};
use qw_types::NoMemory;

/// A quotient from here on has more than 18 digits with four more behind the point.
const LONG: u64 = 100_000_000_000_000;

/// A remainder of fewer values than these has room for four digits more.
const FEW: u64 = 1_000_000_000_000_000;

/// The greatest high word of a number that isn't below 0.
const LAST_POSITIVE: u64 = 9_223_372_036_854_775_807;

/// Adds the average of the sum in the locals `flag + 1` and `flag + 2` of as many numbers as the local `count` says: it is left in `flag + 1`, with four
/// digits more behind the point, truncated toward zero; 2 is raised where it has more than 18 digits. `flag` and `flag + 4` are i32, all others i64.
///
/// # Errors
///
/// [`NoMemory`] where the steps don't fit memory.
pub fn emit_average(block: &mut Block, flag: Local, count: Local) -> Result<(), NoMemory>
    requires { flag < 2 ^ 32 - 4 }
    ensures { OnOk result ((a : Statement) × (block.new.code.items ≡ block.old.code.items ++ steps_of a) × Averages flag count a) }
{
    push_average(block, flag, count)?;
    Ok(())
}

/// Adds the steps of an average: of the magnitude, whose sign is given back at the end.
pub(crate) fn push_average(block: &mut Block, f: Local, x: Local) -> Result<(), NoMemory>
    requires { f < 2 ^ 32 - 4 }
    ensures { OnOk result (block.new.code.items ≡ block.old.code.items ++ steps_of (averaging_block f x)) }
{
    push_magnitude(block, f)?;
    push_quotient(block, f + 1, x)?;
    push_limit(block, f + 1)?;
    push_digits(block, f + 1, x)?;
    push_sign(block, f)
}

/// Adds the steps of a magnitude: `f` tells whether the number was below 0.
fn push_magnitude(block: &mut Block, f: Local) -> Result<(), NoMemory>
    requires { f < 2 ^ 32 - 4 }
    ensures { OnOk result (block.new.code.items ≡ block.old.code.items ++ steps_of (seq (assign f (relop I64 (Lt Unsigned) (i64 (2 ^ 63 - 1)) (local (f + 1 + 1)))) (conditional (local f) (opposite_128 (f + 1)) skip))) }
{
    block.code.extend_from_slice(&[
        LowStep::Op(Op::Const(Const::I64(LAST_POSITIVE))),
        LowStep::Op(Op::LocalGet(f + 2)),
        LowStep::Op(Op::Relation(ValType::I64, Relation::Lt(Sign::Unsigned))),
        LowStep::Op(Op::LocalSet(f)),
        LowStep::Op(Op::LocalGet(f)),
        LowStep::If,
        LowStep::Op(Op::Const(Const::I64(0))),
        LowStep::Op(Op::LocalGet(f + 2)),
        LowStep::Op(Op::Binary(ValType::I64, Binary::Sub)),
        LowStep::Op(Op::LocalGet(f + 1)),
        LowStep::Op(Op::Const(Const::I64(0))),
        LowStep::Op(Op::Relation(ValType::I64, Relation::Ne)),
        LowStep::Op(Op::Convert(Conversion::Extend(Sign::Unsigned))),
        LowStep::Op(Op::Binary(ValType::I64, Binary::Sub)),
        LowStep::Op(Op::LocalSet(f + 2)),
        LowStep::Op(Op::Const(Const::I64(0))),
        LowStep::Op(Op::LocalGet(f + 1)),
        LowStep::Op(Op::Binary(ValType::I64, Binary::Sub)),
        LowStep::Op(Op::LocalSet(f + 1)),
        LowStep::Else,
        LowStep::End,
    ])?;
    Ok(())
}

/// Adds the steps that raise 2 where a quotient is too long.
fn push_limit(block: &mut Block, n: Local) -> Result<(), NoMemory>
    ensures { OnOk result (block.new.code.items ≡ block.old.code.items ++ steps_of (conditional (relop I64 (Le Unsigned) (i64 (10 ^ 14)) (local n)) (raise 2) skip)) }
{
    block.code.extend_from_slice(&[
        LowStep::Op(Op::Const(Const::I64(LONG))),
        LowStep::Op(Op::LocalGet(n)),
        LowStep::Op(Op::Relation(ValType::I64, Relation::Le(Sign::Unsigned))),
        LowStep::If,
        LowStep::Raise(2),
        LowStep::Else,
        LowStep::End,
    ])?;
    Ok(())
}

/// Adds the steps of four digits more of a quotient: all at once, unless the remainder has no room for them.
fn push_digits(block: &mut Block, n: Local, x: Local) -> Result<(), NoMemory>
    requires { n < 2 ^ 32 - 3 }
    ensures { OnOk result (block.new.code.items ≡ block.old.code.items ++ steps_of (digits_block n x)) }
{
    block.code.extend_from_slice(&[
        LowStep::Op(Op::LocalGet(x)),
        LowStep::Op(Op::Const(Const::I64(FEW))),
        LowStep::Op(Op::Relation(ValType::I64, Relation::Lt(Sign::Unsigned))),
        LowStep::If,
    ])?;
    push_digit(block, n, x, 10_000)?;
    block.push(LowStep::Else)?;
    push_digit_turns(block, n, x)?;
    block.push(LowStep::End)
}

/// Adds the steps of four digits more, one by one.
fn push_digit_turns(block: &mut Block, n: Local, x: Local) -> Result<(), NoMemory>
    requires { n < 2 ^ 32 - 3 }
    ensures { OnOk result (block.new.code.items ≡ block.old.code.items ++ steps_of (digit_turns n x)) }
{
    block.code.extend_from_slice(&[
        LowStep::Op(Op::Const(Const::I32(4))),
        LowStep::Op(Op::LocalSet(n + 3)),
        LowStep::Op(Op::LocalGet(n + 3)),
        LowStep::If,
        LowStep::Loop,
    ])?;
    push_digit(block, n, x, 10)?;
    block.code.extend_from_slice(&[
        LowStep::Op(Op::LocalGet(n + 3)),
        LowStep::Op(Op::Const(Const::I32(1))),
        LowStep::Op(Op::Binary(ValType::I32, Binary::Sub)),
        LowStep::Op(Op::LocalSet(n + 3)),
        LowStep::Op(Op::LocalGet(n + 3)),
        LowStep::Again,
        LowStep::End,
        LowStep::End,
    ])?;
    Ok(())
}

/// Adds the steps of a digit more of a quotient, to a base.
fn push_digit(block: &mut Block, n: Local, x: Local, base: u64) -> Result<(), NoMemory>
    requires { n < 2 ^ 32 - 3 }
    ensures { OnOk result (block.new.code.items ≡ block.old.code.items ++ steps_of (digit_block n x base)) }
{
    block.code.extend_from_slice(&[
        LowStep::Op(Op::LocalGet(n + 2)),
        LowStep::Op(Op::Const(Const::I64(base))),
        LowStep::Op(Op::Binary(ValType::I64, Binary::Mul)),
        LowStep::Op(Op::LocalSet(n + 2)),
        LowStep::Op(Op::LocalGet(n)),
        LowStep::Op(Op::Const(Const::I64(base))),
        LowStep::Op(Op::Binary(ValType::I64, Binary::Mul)),
        LowStep::Op(Op::LocalGet(n + 2)),
        LowStep::Op(Op::LocalGet(x)),
        LowStep::Op(Op::Division(ValType::I64, Division::Div(Sign::Unsigned))),
        LowStep::Op(Op::Binary(ValType::I64, Binary::Add)),
        LowStep::Op(Op::LocalSet(n)),
        LowStep::Op(Op::LocalGet(n + 2)),
        LowStep::Op(Op::LocalGet(x)),
        LowStep::Op(Op::Division(ValType::I64, Division::Rem(Sign::Unsigned))),
        LowStep::Op(Op::LocalSet(n + 2)),
    ])?;
    Ok(())
}

/// Adds the steps that give the sign back.
fn push_sign(block: &mut Block, f: Local) -> Result<(), NoMemory>
    requires { f < 2 ^ 32 - 4 }
    ensures { OnOk result (block.new.code.items ≡ block.old.code.items ++ steps_of (conditional (local f) (assign (f + 1) (binop I64 Sub (i64 0) (local (f + 1)))) skip)) }
{
    block.code.extend_from_slice(&[
        LowStep::Op(Op::LocalGet(f)),
        LowStep::If,
        LowStep::Op(Op::Const(Const::I64(0))),
        LowStep::Op(Op::LocalGet(f + 1)),
        LowStep::Op(Op::Binary(ValType::I64, Binary::Sub)),
        LowStep::Op(Op::LocalSet(f + 1)),
        LowStep::Else,
        LowStep::End,
    ])?;
    Ok(())
}
