//! Instructions that hold no sequence, behind their codes (WebAssembly Core Specification 1.0, 5.4).

ghost use Rattle.std.specs.Prelude.{◌≡◌};
ghost use Rattle.std.specs.Option.{option_map};
ghost use Rattle.qw_octet_grammar.specs.Reading.{Gives, read};
ghost use Rattle.qw_binary.specs.Instructions.{indexed_by, mem_arg, zero_octet, simple};
ghost use Rattle.qw_binary.specs.Inner.Indexed.{with_index};

use crate::read::codes::{load_of, plain_of, store_of};
use qw_module::instruction::{Const, Instr, MemArg, Op};
use qw_octet_grammar::fault::BinaryFault;
use qw_octet_grammar::numbers::{s32_at, s64_at, u32_at};

/// An instruction with one index behind its code, and nothing else (5.4.1, 5.4.3).
#[derive(Clone, Copy)]
pub enum Indexed {
    Br,
    BrIf,
    Call,
    LocalGet,
    LocalSet,
    LocalTee,
    GlobalGet,
    GlobalSet,
}

impl Indexed {
    /// The one of a code.
    fn of(code: u8) -> Option<Indexed>
        ensures { option_map with_index result ≡ indexed_by code }
    {
        match code {
            0x0C => Some(Indexed::Br),
            0x0D => Some(Indexed::BrIf),
            0x10 => Some(Indexed::Call),
            0x20 => Some(Indexed::LocalGet),
            0x21 => Some(Indexed::LocalSet),
            0x22 => Some(Indexed::LocalTee),
            0x23 => Some(Indexed::GlobalGet),
            0x24 => Some(Indexed::GlobalSet),
            _ => None,
        }
    }

    /// The instruction with this index.
    fn with(self, index: u32) -> Instr
        ensures { result ≡ with_index self index }
    {
        match self {
            Indexed::Br => Instr::Br(index),
            Indexed::BrIf => Instr::BrIf(index),
            Indexed::Call => Instr::Call(index),
            Indexed::LocalGet => Instr::Op(Op::LocalGet(index)),
            Indexed::LocalSet => Instr::Op(Op::LocalSet(index)),
            Indexed::LocalTee => Instr::Op(Op::LocalTee(index)),
            Indexed::GlobalGet => Instr::Op(Op::GlobalGet(index)),
            Indexed::GlobalSet => Instr::Op(Op::GlobalSet(index)),
        }
    }
}

/// The immediates of an access.
#[tactic(auto, unfolding(qw_octet_grammar::specs::Reading::read))]
fn mem_arg_at(octets: &[u8]) -> Result<(MemArg, &[u8]), BinaryFault>
    ensures { Gives (λ x. (x.0, x.1.now)) result (read mem_arg octets.now) }
{
    let (align, rest) = u32_at(octets)?;
    let (offset, rest) = u32_at(rest)?;
    Ok((MemArg { align, offset }, rest))
}

/// What is behind the octet 00 of an instruction on the size of the memory.
#[tactic(auto, unfolding(qw_octet_grammar::specs::Reading::read))]
fn behind_zero(octets: &[u8]) -> Result<&[u8], BinaryFault>
    ensures { Gives (λ rest. (0, rest.now)) result (read zero_octet octets.now) }
{
    match octets {
        [0x00, rest @ ..] => Ok(rest),
        _ => Err(BinaryFault::NotModule),
    }
}

/// An instruction that holds no sequence and no vector, behind its code.
#[tactic(auto, unfolding(qw_octet_grammar::specs::Reading::read))]
pub fn simple_at(code: u8, octets: &[u8]) -> Result<(Instr, &[u8]), BinaryFault>
    ensures { Gives (λ x. (x.0, x.1.now)) result (read (simple code) octets.now) }
{
    if let Some(indexed) = Indexed::of(code) {
        let (index, rest) = u32_at(octets)?;
        return Ok((indexed.with(index), rest));
    }
    if let Some(load) = load_of(code) {
        let (arg, rest) = mem_arg_at(octets)?;
        return Ok((Instr::Op(Op::Load(load, arg)), rest));
    }
    if let Some(store) = store_of(code) {
        let (arg, rest) = mem_arg_at(octets)?;
        return Ok((Instr::Op(Op::Store(store, arg)), rest));
    }
    match code {
        0x3F => Ok((Instr::Op(Op::MemorySize), behind_zero(octets)?)),
        0x40 => Ok((Instr::Op(Op::MemoryGrow), behind_zero(octets)?)),
        0x41 => {
            let (value, rest) = s32_at(octets)?;
            Ok((Instr::Op(Op::Const(Const::I32(value))), rest))
        }
        0x42 => {
            let (value, rest) = s64_at(octets)?;
            Ok((Instr::Op(Op::Const(Const::I64(value))), rest))
        }
        _ => Ok((plain_of(code)?, octets)),
    }
}
