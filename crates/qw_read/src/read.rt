//! The value of a column at a row.

ghost use Rattle.std.specs.Prelude.{◌≡◌, ◌++◌, OnOk};
ghost use Rattle.std.specs.List.{AllByRecursion};
ghost use Rattle.qw_module.specs.declared.instruction.ValType.TheVariants.{I32};
ghost use Rattle.qw_module.specs.declared.instruction.Load.TheVariants.{Full};
ghost use Rattle.qw_low.specs.Syntax.{Statement, load};
ghost use Rattle.qw_low.specs.Steps.{expression_steps, steps_of};
ghost use Rattle.qw_read.specs.Reading.{Reads, ReadsAll, HasNullWord};
ghost use Rattle.qw_read.specs.Inner.Blocks.{word_at, word_block, double_block, text_block, value_block, row_at, null_block, read_block};

use crate::reader::Reader;
use qw_low::block::Block;
use qw_low::cell::Local;
use qw_low::step::LowStep;
use qw_module::instruction::{Binary, Const, Load, MemArg, Op, Sign, ValType};
use qw_types::{NoMemory, Ty};

/// The access at an address, with no hint of its alignment.
const AT: MemArg = MemArg {
    align: 0,
    offset: 0,
};

/// Adds the address so many octets back from where the values end: of a value of four octets, and of a text's offset.
fn push_place(block: &mut Block, reader: Reader) -> Result<(), NoMemory>
    ensures { OnOk result (block.new.code.items ≡ block.old.code.items ++ expression_steps (word_at reader)) }
{
    block.code.extend_from_slice(&[
        LowStep::Op(Op::LocalGet(reader.values)),
        LowStep::Op(Op::LocalGet(reader.left)),
        LowStep::Op(Op::Binary(ValType::I32, Binary::Sub)),
    ])?;
    Ok(())
}

/// Adds the load of a number of four octets.
fn push_word(block: &mut Block, reader: Reader) -> Result<(), NoMemory>
    ensures { OnOk result (block.new.code.items ≡ block.old.code.items ++ steps_of (word_block reader)) }
{
    push_place(block, reader)?;
    block.code.extend_from_slice(&[
        LowStep::Op(Op::Load(Load::I64From32(Sign::Signed), AT)),
        LowStep::Op(Op::LocalSet(reader.cell.value)),
    ])?;
    Ok(())
}

/// Adds the load of a number of eight octets, which is as many back again.
fn push_double(block: &mut Block, reader: Reader) -> Result<(), NoMemory>
    ensures { OnOk result (block.new.code.items ≡ block.old.code.items ++ steps_of (double_block reader)) }
{
    push_place(block, reader)?;
    block.code.extend_from_slice(&[
        LowStep::Op(Op::LocalGet(reader.left)),
        LowStep::Op(Op::Binary(ValType::I32, Binary::Sub)),
        LowStep::Op(Op::Load(Load::Full(ValType::I64), AT)),
        LowStep::Op(Op::LocalSet(reader.cell.value)),
    ])?;
    Ok(())
}

/// Adds the load of a text's offset among the column's octets, so many octets behind the row's place.
fn push_offset(block: &mut Block, reader: Reader, to: Local, offset: u32) -> Result<(), NoMemory>
    ensures { OnOk result (block.new.code.items ≡ block.old.code.items ++ steps_of (load to (Full I32) offset (word_at reader))) }
{
    push_place(block, reader)?;
    block.code.extend_from_slice(&[
        LowStep::Op(Op::Load(Load::Full(ValType::I32), MemArg { align: 0, offset })),
        LowStep::Op(Op::LocalSet(to)),
    ])?;
    Ok(())
}

/// Adds a text's address and its length, from where it begins among the column's octets and where it ends, which is where the next one begins.
fn push_text(block: &mut Block, reader: Reader) -> Result<(), NoMemory>
    ensures { OnOk result (block.new.code.items ≡ block.old.code.items ++ steps_of (text_block reader)) }
{
    push_offset(block, reader, reader.cell.value, 0)?;
    push_offset(block, reader, reader.cell.length, 4)?;
    block.code.extend_from_slice(&[
        LowStep::Op(Op::LocalGet(reader.cell.length)),
        LowStep::Op(Op::LocalGet(reader.cell.value)),
        LowStep::Op(Op::Binary(ValType::I32, Binary::Sub)),
        LowStep::Op(Op::LocalSet(reader.cell.length)),
        LowStep::Op(Op::LocalGet(reader.octets)),
        LowStep::Op(Op::LocalGet(reader.cell.value)),
        LowStep::Op(Op::Binary(ValType::I32, Binary::Add)),
        LowStep::Op(Op::LocalSet(reader.cell.value)),
    ])?;
    Ok(())
}

/// Adds the load of what stands in the place of a value.
fn push_value(block: &mut Block, reader: Reader) -> Result<(), NoMemory>
    ensures { OnOk result (block.new.code.items ≡ block.old.code.items ++ steps_of (value_block reader.ty reader)) }
{
    match reader.ty {
        Ty::Integer | Ty::Date => push_word(block, reader),
        Ty::Decimal { .. } => push_double(block, reader),
        Ty::Varchar { .. } => push_text(block, reader),
    }
}

/// Adds four times the row, which is the difference of all rows and those that are left.
fn push_row(block: &mut Block, reader: Reader) -> Result<(), NoMemory>
    ensures { OnOk result (block.new.code.items ≡ block.old.code.items ++ expression_steps (row_at reader)) }
{
    block.code.extend_from_slice(&[
        LowStep::Op(Op::LocalGet(reader.end)),
        LowStep::Op(Op::LocalGet(reader.left)),
        LowStep::Op(Op::Binary(ValType::I32, Binary::Sub)),
    ])?;
    Ok(())
}

/// Adds the null word, where there is one: of the octet with the row's null bit, that bit.
fn push_null(block: &mut Block, reader: Reader) -> Result<(), NoMemory>
    ensures { OnOk result (block.new.code.items ≡ block.old.code.items ++ steps_of (null_block reader.cell.null reader)) }
{
    let Some(null) = reader.cell.null else {
        return Ok(());
    };
    block.push(LowStep::Op(Op::LocalGet(reader.nulls)))?;
    push_row(block, reader)?;
    block.code.extend_from_slice(&[
        LowStep::Op(Op::Const(Const::I32(5))),
        LowStep::Op(Op::Binary(ValType::I32, Binary::Shr(Sign::Unsigned))),
        LowStep::Op(Op::Binary(ValType::I32, Binary::Add)),
        LowStep::Op(Op::Load(Load::From8(ValType::I32, Sign::Unsigned), AT)),
        LowStep::Op(Op::LocalSet(null)),
        LowStep::Op(Op::LocalGet(null)),
    ])?;
    push_row(block, reader)?;
    block.code.extend_from_slice(&[
        LowStep::Op(Op::Const(Const::I32(2))),
        LowStep::Op(Op::Binary(ValType::I32, Binary::Shr(Sign::Unsigned))),
        LowStep::Op(Op::Const(Const::I32(7))),
        LowStep::Op(Op::Binary(ValType::I32, Binary::And)),
        LowStep::Op(Op::Binary(ValType::I32, Binary::Shr(Sign::Unsigned))),
        LowStep::Op(Op::Const(Const::I32(1))),
        LowStep::Op(Op::Binary(ValType::I32, Binary::And)),
        LowStep::Op(Op::LocalSet(null)),
    ])?;
    Ok(())
}

/// Adds both.
fn push_read(block: &mut Block, reader: Reader) -> Result<(), NoMemory>
    ensures { OnOk result (block.new.code.items ≡ block.old.code.items ++ steps_of (read_block reader)) }
{
    push_null(block, reader)?;
    push_value(block, reader)
}

/// Adds the read of a column's value at the row that the reader's locals say, into the reader's cell: a number or a date as an i64, a text
/// as its address and its length. A null word is read where the column may be null, and not else.
pub fn emit_read(block: &mut Block, reader: Reader) -> Result<(), NoMemory>
    requires { HasNullWord reader.not_null reader.cell.null }
    ensures { OnOk result ((a : Statement) × (block.new.code.items ≡ block.old.code.items ++ steps_of a) × Reads reader a) }
{
    push_read(block, reader)?;
    Ok(())
}

/// Adds the reads of several columns, one column after another.
pub fn emit_reads(block: &mut Block, readers: &[Reader]) -> Result<(), NoMemory>
    requires { AllByRecursion (λ r. HasNullWord r.not_null r.cell.null) readers.now }
    ensures { OnOk result ((a : Statement) × (block.new.code.items ≡ block.old.code.items ++ steps_of a) × ReadsAll readers.now a) }
{
    for reader in readers {
        push_read(block, *reader)?;
    }
    Ok(())
}
