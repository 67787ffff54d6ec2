//! The cells of a result row, stored from where values are.

ghost use Rattle.std.specs.Prelude.{◌≡◌, ◌≤◌, ◌+◌, ◌++◌, length, OnOk};
ghost use Rattle.qw_module.specs.declared.instruction.Store.TheVariants as stores;
ghost use Rattle.qw_low.specs.Syntax.{local, store};
ghost use Rattle.qw_low.specs.Steps.{steps_of};
ghost use Rattle.qw_feed.specs.Cells.{cell_block, cells_block, plain_block};
ghost use Rattle.qw_operator.specs.Emitted.{sources_of};

use qw_expr::operand::Operand;
use qw_feed::room::{FREE, access_at};
use qw_low::block::Block;
use qw_low::cell::Local;
use qw_low::step::LowStep;
use qw_map::layout::{CELL_LENGTH_OFFSET, CELL_NULL_OFFSET, CELL_OFFSET, CELL_SIZE};
use qw_module::instruction::{Const, Op, Store, ValType};
use qw_types::{Kind, NoMemory};

/// Adds the store of a local, so many octets behind the first free address.
fn push_store(block: &mut Block, ty: ValType, at: u32, from: Local) -> Result<(), NoMemory>
    ensures { OnOk result (block.new.code.items ≡ block.old.code.items ++ steps_of (store (stores.Full ty) at (local 1) (local from))) }
{
    block.code.extend_from_slice(&[
        LowStep::Op(Op::LocalGet(FREE)),
        LowStep::Op(Op::LocalGet(from)),
        LowStep::Op(Op::Store(Store::Full(ty), access_at(at))),
    ])?;
    Ok(())
}

/// Adds the store of a value that isn't null, in the cell so many octets behind the first free address.
fn push_plain(block: &mut Block, value: Operand, at: u32) -> Result<(), NoMemory>
    requires { at ≤ 1000000 }
    ensures { OnOk result (block.new.code.items ≡ block.old.code.items ++ steps_of (plain_block value.kind value.cell at)) }
{
    match value.kind {
        None => Ok(()),
        Some(Kind::Number(_) | Kind::Date) => {
            push_store(block, ValType::I64, at, value.cell.value)
        }
        Some(Kind::Text) => {
            push_store(block, ValType::I32, at, value.cell.value)?;
            push_store(
                block,
                ValType::I32,
                at + CELL_LENGTH_OFFSET,
                value.cell.length,
            )
        }
    }
}

/// Adds the store of a value, or of the mark of a null.
fn push_cell(block: &mut Block, value: Operand, at: u32) -> Result<(), NoMemory>
    requires { at ≤ 1000000 }
    ensures { OnOk result (block.new.code.items ≡ block.old.code.items ++ steps_of (cell_block value.cell.null at (plain_block value.kind value.cell at))) }
{
    let Some(null) = value.cell.null else {
        return push_plain(block, value, at);
    };
    block.code.extend_from_slice(&[
        LowStep::Op(Op::LocalGet(null)),
        LowStep::If,
        LowStep::Op(Op::LocalGet(FREE)),
        LowStep::Op(Op::Const(Const::I32(1))),
        LowStep::Op(Op::Store(Store::To8(ValType::I32), access_at(at + CELL_NULL_OFFSET))),
        LowStep::Else,
    ])?;
    push_plain(block, value, at)?;
    block.push(LowStep::End)
}

/// Adds the stores of values into the cells of a row at the first free address, from its first cell on.
///
/// # Errors
///
/// [`NoMemory`] where memory does not suffice.
pub fn store_cells(block: &mut Block, values: &[Operand]) -> Result<(), NoMemory>
    requires { length values.now ≤ 512 }
    ensures { OnOk result (block.new.code.items ≡ block.old.code.items ++ steps_of (cells_block 8 (sources_of values.now))) }
{
    for (index, value) in values.iter().enumerate() {
        push_cell(block, *value, CELL_OFFSET + CELL_SIZE * index as u32)?;
    }
    Ok(())
}
