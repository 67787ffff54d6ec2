//! Whether one of some columns is null at a row, before their values are read: their null octets are joined, and the row's bit is taken of all at
//! once.

ghost use Rattle.std.specs.Prelude.{◌≡◌, ◌<◌, ◌+◌, ◌^◌, ◌∷◌, ◌++◌, OnOk, false, length};
ghost use Rattle.std.specs.List.{AllByRecursion};
ghost use Rattle.qw_low.specs.Syntax.{Expression, Statement};
ghost use Rattle.qw_low.specs.Steps.{expression_steps, steps_of};
ghost use Rattle.qw_read.specs.NullTests.{IsTestable, TestsNulls};
ghost use Rattle.qw_read.specs.Inner.NullBlocks.{joined, octet_block, octets_block, test_block, test_out};

use crate::reader::Reader;
use qw_low::block::Block;
use qw_low::cell::Local;
use qw_low::step::LowStep;
use qw_module::instruction::{Binary, Const, Load, MemArg, Op, Sign, ValType};
use qw_types::NoMemory;

/// Adds the load of the octet that has the row's null bit.
fn push_octet(block: &mut Block, reader: Reader, index: Local, to: Local) -> Result<(), NoMemory>
    ensures { OnOk result (block.new.code.items ≡ block.old.code.items ++ steps_of (octet_block reader index to)) }
{
    block.code.extend_from_slice(&[
        LowStep::Op(Op::LocalGet(reader.nulls)),
        LowStep::Op(Op::LocalGet(index)),
        LowStep::Op(Op::Binary(ValType::I32, Binary::Add)),
        LowStep::Op(Op::Load(
            Load::From8(ValType::I32, Sign::Unsigned),
            MemArg {
                align: 0,
                offset: 0,
            },
        )),
        LowStep::Op(Op::LocalSet(to)),
    ])?;
    Ok(())
}

/// Adds those of several columns, into locals that follow one another.
fn push_octets(
    block: &mut Block,
    readers: &[Reader],
    index: Local,
    to: Local,
) -> Result<(), NoMemory>
    requires { to + length readers.now < 2 ^ 32 }
    ensures { OnOk result (block.new.code.items ≡ block.old.code.items ++ steps_of (octets_block index to readers.now)) }
{
    let Some((first, rest)) = readers.split_first() else {
        return Ok(());
    };
    push_octet(block, *first, index, to)?;
    push_octets(block, rest, index, to + 1)
}

/// Adds the octets of a column and of others, joined: first the one that was loaded last, so that its local is set and got at once.
fn push_joined(block: &mut Block, rest: &[Reader], to: Local) -> Result<(), NoMemory>
    requires { to + length rest.now < 2 ^ 32 }
    ensures { OnOk result (block.new.code.items ≡ block.old.code.items ++ expression_steps (joined to rest.now)) }
{
    let Some((_, others)) = rest.split_first() else {
        return block.push(LowStep::Op(Op::LocalGet(to)));
    };
    push_joined(block, others, to + 1)?;
    block.push(LowStep::Op(Op::LocalGet(to)))?;
    block.push(LowStep::Op(Op::Binary(ValType::I32, Binary::Or)))
}

/// Adds the row, where its bit is among null octets, and the octets that have it.
fn push_test(block: &mut Block, first: Reader, rest: &[Reader], free: Local) -> Result<(), NoMemory>
    requires { free + 3 + length rest.now < 2 ^ 32 }
    ensures { OnOk result (block.new.code.items ≡ block.old.code.items ++ steps_of (test_block first rest.now free)) }
{
    block.code.extend_from_slice(&[
        LowStep::Op(Op::LocalGet(first.end)),
        LowStep::Op(Op::LocalGet(first.left)),
        LowStep::Op(Op::Binary(ValType::I32, Binary::Sub)),
        LowStep::Op(Op::LocalSet(free)),
        LowStep::Op(Op::LocalGet(free)),
        LowStep::Op(Op::Const(Const::I32(5))),
        LowStep::Op(Op::Binary(ValType::I32, Binary::Shr(Sign::Unsigned))),
        LowStep::Op(Op::LocalSet(free + 1)),
    ])?;
    push_octet(block, first, free + 1, free + 2)?;
    push_octets(block, rest, free + 1, free + 3)?;
    Ok(())
}

/// Adds whether the row's bit is 0 in all of them.
fn push_out(block: &mut Block, rest: &[Reader], free: Local) -> Result<(), NoMemory>
    requires { free + 3 + length rest.now < 2 ^ 32 }
    ensures { OnOk result (block.new.code.items ≡ block.old.code.items ++ expression_steps (test_out rest.now free)) }
{
    push_joined(block, rest, free + 2)?;
    block.code.extend_from_slice(&[
        LowStep::Op(Op::LocalGet(free)),
        LowStep::Op(Op::Const(Const::I32(2))),
        LowStep::Op(Op::Binary(ValType::I32, Binary::Shr(Sign::Unsigned))),
        LowStep::Op(Op::Const(Const::I32(7))),
        LowStep::Op(Op::Binary(ValType::I32, Binary::And)),
        LowStep::Op(Op::Binary(ValType::I32, Binary::Shr(Sign::Unsigned))),
        LowStep::Op(Op::Const(Const::I32(1))),
        LowStep::Op(Op::Binary(ValType::I32, Binary::And)),
        LowStep::Op(Op::Eqz(ValType::I32)),
    ])?;
    Ok(())
}

/// Adds the test of whether a column and others, which the same locals lead to, are null at the row that these locals say: an expression behind a
/// block, which is 1 where none is null. The locals of its own begin at `free`.
///
/// # Errors
///
/// [`NoMemory`] where memory does not suffice.
pub fn emit_null_test(
    block: &mut Block,
    first: Reader,
    rest: &[Reader],
    free: Local,
) -> Result<(), NoMemory>
    requires first { first.not_null ≡ false }
    requires rest { AllByRecursion (IsTestable first.left first.end) rest.now }
    requires room { free + 3 + length rest.now < 2 ^ 32 }
    ensures { OnOk result ((a : Statement) × (out : Expression) × (block.new.code.items ≡ block.old.code.items ++ (steps_of a ++ expression_steps out)) × TestsNulls (first ∷ rest.now) free out a) }
{
    push_test(block, first, rest, free)?;
    push_out(block, rest, free)?;
    Ok(())
}
