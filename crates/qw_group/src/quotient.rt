//! The quotient of a number of 128 bits by one of 63: the low word's digits come one by one, behind the remainder of the high word.

ghost use Rattle.std.specs.Prelude.{◌≡◌, ◌+◌, ◌-◌, ◌<◌, ◌≤◌, ◌^◌, ◌++◌, OnOk};
ghost use Rattle.qw_low.specs.Syntax.{Statement};
ghost use Rattle.qw_low.specs.Steps.{steps_of};
ghost use Rattle.qw_group.specs.Sums.{Divides};
ghost use Rattle.qw_group.specs.Inner.WideBlocks.{div_128_block, low_word_block, quotient_block};

use qw_low::block::Block;
use qw_low::cell::Local;
use qw_low::step::LowStep;
use qw_module::instruction::{Binary, Const, Division, Op, Sign, ValType};
use qw_types::NoMemory;

/// Adds the division of a number without sign, in a local and the one behind it, by the one in another local: the quotient takes its place, and the
/// remainder is left in the local behind. The local behind that, an i32, is the block's own; all others are i64.
///
/// # Errors
///
/// [`NoMemory`] where the steps don't fit memory.
pub fn emit_div128(block: &mut Block, number: Local, divisor: Local) -> Result<(), NoMemory>
    requires { number < 2 ^ 32 - 3 }
    ensures { OnOk result ((a : Statement) × (block.new.code.items ≡ block.old.code.items ++ steps_of a) × Divides number divisor a) }
{
    push_divide(block, number, divisor)?;
    Ok(())
}

/// Adds the steps of a division: of the high word at once, of the low one bit by bit, since a remainder may have 63 bits.
fn push_divide(block: &mut Block, n: Local, x: Local) -> Result<(), NoMemory>
    requires { n < 2 ^ 32 - 3 }
    ensures { OnOk result (block.new.code.items ≡ block.old.code.items ++ steps_of (div_128_block n x)) }
{
    block.code.extend_from_slice(&[
        LowStep::Op(Op::LocalGet(n + 1)),
        LowStep::Op(Op::LocalGet(x)),
        LowStep::Op(Op::Division(ValType::I64, Division::Rem(Sign::Unsigned))),
        LowStep::Op(Op::LocalSet(n + 2)),
        LowStep::Op(Op::LocalGet(n + 1)),
        LowStep::Op(Op::LocalGet(x)),
        LowStep::Op(Op::Division(ValType::I64, Division::Div(Sign::Unsigned))),
        LowStep::Op(Op::LocalSet(n + 1)),
    ])?;
    push_low_word(block, n, x, 1)
}

/// Adds the steps of a quotient that has one word, by a divisor below 2^60, whose remainders leave room for four bits more: one division where the high
/// word is 0, and else 16 digits of four bits.
pub(crate) fn push_quotient(block: &mut Block, n: Local, x: Local) -> Result<(), NoMemory>
    requires { n < 2 ^ 32 - 3 }
    ensures { OnOk result (block.new.code.items ≡ block.old.code.items ++ steps_of (quotient_block n x)) }
{
    block.code.extend_from_slice(&[
        LowStep::Op(Op::LocalGet(n + 1)),
        LowStep::Op(Op::Eqz(ValType::I64)),
        LowStep::If,
        LowStep::Op(Op::LocalGet(n)),
        LowStep::Op(Op::LocalGet(x)),
        LowStep::Op(Op::Division(ValType::I64, Division::Rem(Sign::Unsigned))),
        LowStep::Op(Op::LocalSet(n + 2)),
        LowStep::Op(Op::LocalGet(n)),
        LowStep::Op(Op::LocalGet(x)),
        LowStep::Op(Op::Division(ValType::I64, Division::Div(Sign::Unsigned))),
        LowStep::Op(Op::LocalSet(n)),
        LowStep::Else,
        LowStep::Op(Op::LocalGet(n + 1)),
        LowStep::Op(Op::LocalSet(n + 2)),
    ])?;
    push_low_word(block, n, x, 4)?;
    block.push(LowStep::End)
}

/// Adds the steps that divide the low word, where `n + 2` has the high word's remainder, in digits of so many bits: each turn brings the number's next digit
/// down behind the remainder, and puts the quotient's in at the low word's other end.
fn push_low_word(block: &mut Block, n: Local, x: Local, bits: u32) -> Result<(), NoMemory>
    requires room { n < 2 ^ 32 - 3 }
    requires some { 1 ≤ bits }
    requires few { bits ≤ 64 }
    ensures { OnOk result (block.new.code.items ≡ block.old.code.items ++ steps_of (low_word_block n x bits)) }
{
    block.code.extend_from_slice(&[
        LowStep::Op(Op::Const(Const::I32(64 / bits))),
        LowStep::Op(Op::LocalSet(n + 3)),
        LowStep::Op(Op::LocalGet(n + 3)),
        LowStep::If,
        LowStep::Loop,
        LowStep::Op(Op::LocalGet(n + 2)),
        LowStep::Op(Op::Const(Const::I64(u64::from(bits)))),
        LowStep::Op(Op::Binary(ValType::I64, Binary::Shl)),
        LowStep::Op(Op::LocalGet(n)),
        LowStep::Op(Op::Const(Const::I64(u64::from(64 - bits)))),
        LowStep::Op(Op::Binary(ValType::I64, Binary::Shr(Sign::Unsigned))),
        LowStep::Op(Op::Binary(ValType::I64, Binary::Add)),
        LowStep::Op(Op::LocalSet(n + 2)),
        LowStep::Op(Op::LocalGet(n)),
        LowStep::Op(Op::Const(Const::I64(u64::from(bits)))),
        LowStep::Op(Op::Binary(ValType::I64, Binary::Shl)),
        LowStep::Op(Op::LocalGet(n + 2)),
        LowStep::Op(Op::LocalGet(x)),
        LowStep::Op(Op::Division(ValType::I64, Division::Div(Sign::Unsigned))),
        LowStep::Op(Op::Binary(ValType::I64, Binary::Add)),
        LowStep::Op(Op::LocalSet(n)),
        LowStep::Op(Op::LocalGet(n + 2)),
        LowStep::Op(Op::LocalGet(x)),
        LowStep::Op(Op::Division(ValType::I64, Division::Rem(Sign::Unsigned))),
        LowStep::Op(Op::LocalSet(n + 2)),
        LowStep::Op(Op::LocalGet(n + 3)),
        LowStep::Op(Op::Const(Const::I32(1))),
        LowStep::Op(Op::Binary(ValType::I32, Binary::Sub)),
        LowStep::Op(Op::LocalSet(n + 3)),
        LowStep::Op(Op::LocalGet(n + 3)),
        LowStep::Again,
        LowStep::End,
        LowStep::End,
    ])?;
    Ok(())
}
