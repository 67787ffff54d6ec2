//! The result's rows: none at first, one added, and what the descriptor has at the end. What the blocks do stands in `proofs/PushFeeds` and
//! `proofs/FinishRuns`.

ghost use Rattle.std.specs.Prelude.{◌≡◌, ◌++◌, OnOk};
ghost use Rattle.qw_low.specs.Steps.{steps_of};
ghost use Rattle.qw_low.specs.Syntax.{Statement};
ghost use Rattle.qw_feed.specs.Rows.{begin_block, finish_block, link_block, push_block};

use crate::room::{DESCRIPTOR, FREE, LEFT, access_at, find_room};
use qw_low::block::Block;
use qw_low::cell::Local;
use qw_low::step::LowStep;
use qw_map::layout::{COUNT_OFFSET, FIRST_ROW_OFFSET, FREE_OFFSET, LAST_ROW_OFFSET};
use qw_module::instruction::{Binary, Const, Op, Store, ValType};
use qw_types::NoMemory;

/// The address of the last link: that of the last row, or of the first page's word for the first one.
pub const LINK: Local = 3;

/// How many rows there are.
pub const COUNT: Local = 4;

/// Adds what the locals of the result begin as: there are no rows.
///
/// # Errors
///
/// [`NoMemory`] where the block does not fit memory.
pub fn begin_rows(block: &mut Block) -> Result<(), NoMemory>
    ensures { OnOk result (block.new.code.items ≡ block.old.code.items ++ steps_of begin_block) }
{
    block.code.extend_from_slice(&[
        LowStep::Op(Op::LocalGet(DESCRIPTOR)),
        LowStep::Op(Op::Const(Const::I32(FIRST_ROW_OFFSET))),
        LowStep::Op(Op::Binary(ValType::I32, Binary::Add)),
        LowStep::Op(Op::LocalSet(LINK)),
        LowStep::Op(Op::Const(Const::I64(0))),
        LowStep::Op(Op::LocalSet(COUNT)),
    ])?;
    Ok(())
}

/// Adds the link to the row at the first free address, which is so many octets long, and counts it.
fn link(block: &mut Block, size: u32) -> Result<(), NoMemory>
    ensures { OnOk result (block.new.code.items ≡ block.old.code.items ++ steps_of (link_block size)) }
{
    block.code.extend_from_slice(&[
        LowStep::Op(Op::LocalGet(LINK)),
        LowStep::Op(Op::LocalGet(FREE)),
        LowStep::Op(Op::Store(Store::Full(ValType::I32), access_at(0))),
        LowStep::Op(Op::LocalGet(FREE)),
        LowStep::Op(Op::LocalSet(LINK)),
        LowStep::Op(Op::LocalGet(FREE)),
        LowStep::Op(Op::Const(Const::I32(size))),
        LowStep::Op(Op::Binary(ValType::I32, Binary::Add)),
        LowStep::Op(Op::LocalSet(FREE)),
        LowStep::Op(Op::LocalGet(LEFT)),
        LowStep::Op(Op::Const(Const::I32(size))),
        LowStep::Op(Op::Binary(ValType::I32, Binary::Sub)),
        LowStep::Op(Op::LocalSet(LEFT)),
        LowStep::Op(Op::LocalGet(COUNT)),
        LowStep::Op(Op::Const(Const::I64(1))),
        LowStep::Op(Op::Binary(ValType::I64, Binary::Add)),
        LowStep::Op(Op::LocalSet(COUNT)),
    ])?;
    Ok(())
}

/// Adds a row of so many octets to the result, whose cells `fill` stores behind the first free address. Another page is asked for where
/// it doesn't fit.
///
/// # Errors
///
/// [`NoMemory`] where the block does not fit memory.
pub fn push_row(block: &mut Block, size: u32, fill: &Block) -> Result<(), NoMemory>
    ensures { OnOk result ((cells : Statement) → fill.now.code.items ≡ steps_of cells →
        block.new.code.items ≡ block.old.code.items ++ steps_of (push_block size cells)) }
{
    find_room(block, size)?;
    block.append(fill)?;
    link(block, size)?;
    Ok(())
}

/// Adds what is stored in the descriptor at the end: the first free address, the last row if there is one, and how many there are.
///
/// # Errors
///
/// [`NoMemory`] where the block does not fit memory.
pub fn finish(block: &mut Block) -> Result<(), NoMemory>
    ensures { OnOk result (block.new.code.items ≡ block.old.code.items ++ steps_of finish_block) }
{
    block.code.extend_from_slice(&[
        LowStep::Op(Op::LocalGet(DESCRIPTOR)),
        LowStep::Op(Op::LocalGet(FREE)),
        LowStep::Op(Op::Store(Store::Full(ValType::I32), access_at(FREE_OFFSET))),
        LowStep::Op(Op::LocalGet(COUNT)),
        LowStep::Op(Op::Eqz(ValType::I64)),
        LowStep::If,
        LowStep::Else,
        LowStep::Op(Op::LocalGet(DESCRIPTOR)),
        LowStep::Op(Op::LocalGet(LINK)),
        LowStep::Op(Op::Store(Store::Full(ValType::I32), access_at(LAST_ROW_OFFSET))),
        LowStep::End,
        LowStep::Op(Op::LocalGet(DESCRIPTOR)),
        LowStep::Op(Op::LocalGet(COUNT)),
        LowStep::Op(Op::Store(Store::Full(ValType::I64), access_at(COUNT_OFFSET))),
    ])?;
    Ok(())
}
