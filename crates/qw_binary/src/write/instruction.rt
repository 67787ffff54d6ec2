//! Instructions that hold no sequence, behind their codes (WebAssembly Core Specification 1.0, 5.4).

ghost use Rattle.std.specs.Prelude.{OnOk};
ghost use Rattle.qw_octet_grammar.specs.Writing.{Puts};
ghost use Rattle.qw_module.specs.declared.instruction.Instr.{Instr as AnyInstr};
ghost use Rattle.qw_module.specs.declared.instruction.Instr.TheVariants as i;
ghost use Rattle.qw_module.specs.declared.instruction.Op.TheVariants as o;
ghost use Rattle.qw_binary.specs.Instructions.{mem_arg};
ghost use Rattle.qw_binary.specs.Inner.Codes.{IsIndexed, IsPlain};
ghost use Rattle.qw_binary.specs.Inner.Followed.{IsAlone};
ghost use Rattle.qw_binary.specs.Inner.Writer.{PutsInstruction};

use crate::write::codes::{
    binary_code, conversion_code, division_code, eqz_code, load_code, relation_code, store_code,
    unary_code,
};
use qw_module::instruction::{Const, Instr, Load, MemArg, Op, Store};
use qw_octet_grammar::write::{put_s32, put_s64, put_u32};
use std::alloc::AllocError;

/// Writes a code with an index behind it.
#[tactic(auto, using(crate::proofs::WriteCodes::instruction_put))]
fn put_indexed(code: u8, index: u32, out: &mut Vec<u8>) -> Result<(), AllocError>
    ensures { OnOk result ((i : AnyInstr) → IsIndexed code index i → PutsInstruction i out.old.items out.new.items) }
{
    out.push(code)?;
    put_u32(index, out)
}

/// Writes a code with nothing behind it.
#[tactic(auto, using(crate::proofs::WriteCodes::instruction_put))]
fn put_plain(code: u8, out: &mut Vec<u8>) -> Result<(), AllocError>
    ensures { OnOk result ((i : AnyInstr) → IsPlain code i → PutsInstruction i out.old.items out.new.items) }
{
    out.push(code)?;
    Ok(())
}

/// Writes the immediates of an access.
#[tactic(auto, using(crate::proofs::WriteSimple::puts_mem_arg))]
fn put_mem_arg(arg: MemArg, out: &mut Vec<u8>) -> Result<(), AllocError>
    ensures { OnOk result (Puts mem_arg arg out.old.items out.new.items) }
{
    put_u32(arg.align, out)?;
    put_u32(arg.offset, out)
}

/// Writes a load.
#[tactic(auto, using(crate::proofs::WriteCodes::instruction_put))]
fn put_load(load: Load, arg: MemArg, out: &mut Vec<u8>) -> Result<(), AllocError>
    ensures { OnOk result (PutsInstruction (i.Op (o.Load load arg)) out.old.items out.new.items) }
{
    out.push(load_code(load))?;
    put_mem_arg(arg, out)
}

/// Writes a store.
#[tactic(auto, using(crate::proofs::WriteCodes::instruction_put))]
fn put_store(store: Store, arg: MemArg, out: &mut Vec<u8>) -> Result<(), AllocError>
    ensures { OnOk result (PutsInstruction (i.Op (o.Store store arg)) out.old.items out.new.items) }
{
    out.push(store_code(store))?;
    put_mem_arg(arg, out)
}

/// Writes a constant, which is signed.
#[tactic(auto, using(crate::proofs::WriteCodes::instruction_put))]
fn put_const(constant: Const, out: &mut Vec<u8>) -> Result<(), AllocError>
    ensures { OnOk result (PutsInstruction (i.Op (o.Const constant)) out.old.items out.new.items) }
{
    match constant {
        Const::I32(value) => {
            out.push(0x41)?;
            put_s32(value, out)
        }
        Const::I64(value) => {
            out.push(0x42)?;
            put_s64(value, out)
        }
    }
}

/// Writes an access to the size of the memory, whose code an octet 00 follows.
#[tactic(auto, using(crate::proofs::WriteCodes::instruction_put))]
fn put_memory_size(out: &mut Vec<u8>) -> Result<(), AllocError>
    ensures { OnOk result (PutsInstruction (i.Op o.MemorySize) out.old.items out.new.items) }
{
    out.push(0x3F)?;
    out.push(0x00)?;
    Ok(())
}

/// Writes a growth of the memory, whose code an octet 00 follows.
#[tactic(auto, using(crate::proofs::WriteCodes::instruction_put))]
fn put_memory_grow(out: &mut Vec<u8>) -> Result<(), AllocError>
    ensures { OnOk result (PutsInstruction (i.Op o.MemoryGrow) out.old.items out.new.items) }
{
    out.push(0x40)?;
    out.push(0x00)?;
    Ok(())
}

/// Writes an instruction that is none of control.
fn put_op(op: Op, out: &mut Vec<u8>) -> Result<(), AllocError>
    ensures { OnOk result (PutsInstruction (i.Op op) out.old.items out.new.items) }
{
    match op {
        Op::Nop => put_plain(0x01, out),
        Op::Drop => put_plain(0x1A, out),
        Op::Select => put_plain(0x1B, out),
        Op::LocalGet(index) => put_indexed(0x20, index, out),
        Op::LocalSet(index) => put_indexed(0x21, index, out),
        Op::LocalTee(index) => put_indexed(0x22, index, out),
        Op::GlobalGet(index) => put_indexed(0x23, index, out),
        Op::GlobalSet(index) => put_indexed(0x24, index, out),
        Op::Const(constant) => put_const(constant, out),
        Op::Unary(ty, unary) => put_plain(unary_code(ty, unary), out),
        Op::Binary(ty, binary) => put_plain(binary_code(ty, binary), out),
        Op::Division(ty, division) => put_plain(division_code(ty, division), out),
        Op::Eqz(ty) => put_plain(eqz_code(ty), out),
        Op::Relation(ty, relation) => put_plain(relation_code(ty, relation), out),
        Op::Convert(conversion) => put_plain(conversion_code(conversion), out),
        Op::Load(load, arg) => put_load(load, arg, out),
        Op::Store(store, arg) => put_store(store, arg, out),
        Op::MemorySize => put_memory_size(out),
        Op::MemoryGrow => put_memory_grow(out),
    }
}

/// Writes an instruction that holds no sequence and names no labels.
pub fn put_simple(instruction: Instr, out: &mut Vec<u8>) -> Result<(), AllocError>
    requires { IsAlone instruction }
    ensures { OnOk result (PutsInstruction instruction out.old.items out.new.items) }
{
    match instruction {
        Instr::Op(op) => put_op(op, out),
        Instr::Unreachable => put_plain(0x00, out),
        Instr::Br(label) => put_indexed(0x0C, label, out),
        Instr::BrIf(label) => put_indexed(0x0D, label, out),
        Instr::Return => put_plain(0x0F, out),
        Instr::Call(index) => put_indexed(0x10, index, out),
        _ => unreachable!(),
    }
}
