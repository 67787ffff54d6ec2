//! Types (WebAssembly Core Specification 1.0, 5.3).

ghost use Rattle.std.specs.Prelude.{OnOk, map};
ghost use Rattle.qw_octet_grammar.specs.Vectors.{vector};
ghost use Rattle.qw_octet_grammar.specs.Writing.{Puts};
ghost use Rattle.qw_module.specs.Validity.{signature_of};
ghost use Rattle.qw_binary.specs.Types.{val_type, block_type, func_type, limits as limits_grammar};

use crate::write::codes::{block_type_code, val_type_code};
use qw_module::instruction::{BlockType, ValType};
use qw_module::module::{FuncType, Limits};
use qw_octet_grammar::write::{put_size, put_u32};
use std::alloc::AllocError;

/// Writes a value type.
#[tactic(auto, using(crate::proofs::WriteCodes::puts_val_type))]
pub fn put_val_type(ty: ValType, out: &mut Vec<u8>) -> Result<(), AllocError>
    ensures { OnOk result (Puts val_type ty out.old.items out.new.items) }
{
    out.push(val_type_code(ty))?;
    Ok(())
}

/// Writes a type of blocks.
#[tactic(auto, using(crate::proofs::WriteCodes::puts_block_type))]
pub fn put_block_type(ty: BlockType, out: &mut Vec<u8>) -> Result<(), AllocError>
    ensures { OnOk result (Puts block_type ty out.old.items out.new.items) }
{
    out.push(block_type_code(ty))?;
    Ok(())
}

/// Writes a vector of value types.
fn put_val_types(types: &[ValType], out: &mut Vec<u8>) -> Result<(), AllocError>
    ensures { OnOk result (Puts (vector val_type) types.now out.old.items out.new.items) }
{
    put_size(types.len(), out)?;
    for ty in types {
        put_val_type(*ty, out)?;
    }
    Ok(())
}

/// Writes the type of a function.
#[tactic(auto, using(crate::proofs::WriteSimple::puts_func_type))]
fn put_func_type(ty: &FuncType, out: &mut Vec<u8>) -> Result<(), AllocError>
    ensures { OnOk result (Puts func_type (signature_of ty.now) out.old.items out.new.items) }
{
    out.push(0x60)?;
    put_val_types(&ty.params, out)?;
    put_val_types(&ty.results, out)
}

/// Writes a vector of types of functions.
pub fn put_func_types(types: &[FuncType], out: &mut Vec<u8>) -> Result<(), AllocError>
    ensures { OnOk result (Puts (vector func_type) (map signature_of types.now) out.old.items out.new.items) }
{
    put_size(types.len(), out)?;
    for ty in types {
        put_func_type(ty, out)?;
    }
    Ok(())
}

/// Writes limits.
#[tactic(auto, using(crate::proofs::WriteSimple::puts_least, crate::proofs::WriteSimple::puts_both))]
pub fn put_limits(limits: Limits, out: &mut Vec<u8>) -> Result<(), AllocError>
    ensures { OnOk result (Puts limits_grammar limits out.old.items out.new.items) }
{
    match limits.max {
        None => {
            out.push(0x00)?;
            put_u32(limits.min, out)
        }
        Some(max) => {
            out.push(0x01)?;
            put_u32(limits.min, out)?;
            put_u32(max, out)
        }
    }
}

/// Writes a vector of limits, the memories.
pub fn put_memories(memories: &[Limits], out: &mut Vec<u8>) -> Result<(), AllocError>
    ensures { OnOk result (Puts (vector limits_grammar) memories.now out.old.items out.new.items) }
{
    put_size(memories.len(), out)?;
    for limits in memories {
        put_limits(*limits, out)?;
    }
    Ok(())
}
