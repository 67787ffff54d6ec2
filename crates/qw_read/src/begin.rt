//! The addresses of a column's parts, from the descriptor into locals, once at the start of a run: of its values where they end, of its
//! other parts where they begin.

ghost use Rattle.std.specs.Prelude.{◌≡◌, ◌≤◌, ◌+◌, ◌++◌, not, true, OnOk};
ghost use Rattle.std.specs.List.{AllByRecursion};
ghost use Rattle.qw_map.specs.Layout as layout;
ghost use Rattle.qw_low.specs.Syntax.{Statement};
ghost use Rattle.qw_low.specs.Steps.{steps_of};
ghost use Rattle.qw_read.specs.Reading.{Begins, BeginsAll};
ghost use Rattle.qw_read.specs.Inner.Blocks.{base_block, to_end_block, begin_block};

use crate::reader::Reader;
use qw_low::block::Block;
use qw_low::cell::Local;
use qw_low::step::LowStep;
use qw_map::layout::{ENTRY_NULLS_OFFSET, ENTRY_OCTETS_OFFSET, entry_offset};
use qw_module::instruction::{Binary, Load, MemArg, Op, ValType};
use qw_types::{NoMemory, Ty};

/// The local of a function's argument: the address of the first page, where the descriptor and the texts are.
pub(crate) const FIRST_PAGE: Local = 0;

/// Adds the load of an address, so many octets behind the first page's.
fn push_base(block: &mut Block, to: Local, offset: u32) -> Result<(), NoMemory>
    ensures { OnOk result (block.new.code.items ≡ block.old.code.items ++ steps_of (base_block true to offset)) }
{
    block.code.extend_from_slice(&[
        LowStep::Op(Op::LocalGet(FIRST_PAGE)),
        LowStep::Op(Op::Load(Load::Full(ValType::I32), MemArg { align: 0, offset })),
        LowStep::Op(Op::LocalSet(to)),
    ])?;
    Ok(())
}

/// Adds so many octets to the address of the values that it leads to where they end.
fn push_to_end(block: &mut Block, reader: Reader) -> Result<(), NoMemory>
    ensures { OnOk result (block.new.code.items ≡ block.old.code.items ++ steps_of (to_end_block reader.ty reader)) }
{
    let further = [
        LowStep::Op(Op::LocalGet(reader.end)),
        LowStep::Op(Op::Binary(ValType::I32, Binary::Add)),
    ];
    block.push(LowStep::Op(Op::LocalGet(reader.values)))?;
    block.code.extend_from_slice(&further)?;
    match reader.ty {
        Ty::Integer | Ty::Date | Ty::Varchar { .. } => {}
        Ty::Decimal { .. } => block.code.extend_from_slice(&further)?,
    }
    block.push(LowStep::Op(Op::LocalSet(reader.values)))
}

/// Adds the load of the address of the texts' octets, where the values are texts.
fn push_octets(block: &mut Block, reader: Reader) -> Result<(), NoMemory>
    requires { reader.index ≤ 4096 }
    ensures { OnOk result (block.new.code.items ≡ block.old.code.items ++ steps_of (base_block (layout.is_text reader.ty) reader.octets (layout.entry_offset reader.index + 8))) }
{
    match reader.ty {
        Ty::Integer | Ty::Decimal { .. } | Ty::Date => Ok(()),
        Ty::Varchar { .. } => push_base(
            block,
            reader.octets,
            entry_offset(reader.index) + ENTRY_OCTETS_OFFSET,
        ),
    }
}

/// Adds the load of the address of the null bits, where there are any.
fn push_nulls(block: &mut Block, reader: Reader) -> Result<(), NoMemory>
    requires { reader.index ≤ 4096 }
    ensures { OnOk result (block.new.code.items ≡ block.old.code.items ++ steps_of (base_block (not reader.not_null) reader.nulls (layout.entry_offset reader.index + 4))) }
{
    if reader.not_null {
        return Ok(());
    }
    push_base(
        block,
        reader.nulls,
        entry_offset(reader.index) + ENTRY_NULLS_OFFSET,
    )
}

/// Adds all of them.
fn push_begin(block: &mut Block, reader: Reader) -> Result<(), NoMemory>
    requires { reader.index ≤ 4096 }
    ensures { OnOk result (block.new.code.items ≡ block.old.code.items ++ steps_of (begin_block reader)) }
{
    push_base(block, reader.values, entry_offset(reader.index))?;
    push_to_end(block, reader)?;
    push_octets(block, reader)?;
    push_nulls(block, reader)
}

/// Adds the loads of the addresses of a column's parts, of those that it has, into the reader's locals for them. The number of rows stands
/// in the reader's local before.
pub fn emit_begin(block: &mut Block, reader: Reader) -> Result<(), NoMemory>
    requires { reader.index ≤ 4096 }
    ensures { OnOk result ((a : Statement) × (block.new.code.items ≡ block.old.code.items ++ steps_of a) × Begins reader a) }
{
    push_begin(block, reader)?;
    Ok(())
}

/// Adds the loads of the addresses of the parts of several columns, one column after another.
pub fn emit_begins(block: &mut Block, readers: &[Reader]) -> Result<(), NoMemory>
    requires { AllByRecursion (λ r. r.index ≤ 4096) readers.now }
    ensures { OnOk result ((a : Statement) × (block.new.code.items ≡ block.old.code.items ++ steps_of a) × BeginsAll readers.now a) }
{
    for reader in readers {
        push_begin(block, *reader)?;
    }
    Ok(())
}
