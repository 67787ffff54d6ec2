//! Types (WebAssembly Core Specification 1.0, 5.3).

ghost use Rattle.std.specs.Prelude.{◌≡◌, [], map};
ghost use Rattle.qw_octet_grammar.specs.Vectors.{counted, one_more, vector};
ghost use Rattle.qw_octet_grammar.specs.Reading.{Gives, read};
ghost use Rattle.qw_module.specs.Validity.{signature_of};
ghost use Rattle.qw_binary.specs.Types.{val_type_by, val_type, block_type_by, block_type, func_type, limits, mutability_by, mutability};

use qw_module::instruction::{BlockType, ValType};
use qw_module::module::{FuncType, Limits};
use qw_octet_grammar::fault::{BinaryFault, What};
use qw_octet_grammar::numbers::u32_at;
use std::alloc::Global;

/// The value type of an octet.
fn val_type_of(octet: u8) -> Result<ValType, BinaryFault>
    ensures { result ≡ val_type_by octet }
{
    match octet {
        0x7F => Ok(ValType::I32),
        0x7E => Ok(ValType::I64),
        0x7D | 0x7C => Err(BinaryFault::OutOfProfile { what: What::Float }),
        _ => Err(BinaryFault::NotModule),
    }
}

/// A value type.
#[tactic(auto, unfolding(qw_octet_grammar::specs::Reading::read))]
pub fn val_type_at(octets: &[u8]) -> Result<(ValType, &[u8]), BinaryFault>
    ensures { Gives (λ x. (x.0, x.1.now)) result (read val_type octets.now) }
{
    match octets {
        [] => Err(BinaryFault::NotModule),
        [octet, rest @ ..] => Ok((val_type_of(*octet)?, rest)),
    }
}

/// The block type of an octet.
fn block_type_of(octet: u8) -> Result<BlockType, BinaryFault>
    ensures { result ≡ block_type_by octet }
{
    if octet == 0x40 {
        return Ok(None);
    }
    match val_type_of(octet) {
        Ok(ty) => Ok(Some(ty)),
        Err(fault) => Err(fault),
    }
}

/// A block type.
#[tactic(auto, unfolding(qw_octet_grammar::specs::Reading::read))]
pub fn block_type_at(octets: &[u8]) -> Result<(BlockType, &[u8]), BinaryFault>
    ensures { Gives (λ x. (x.0, x.1.now)) result (read block_type octets.now) }
{
    match octets {
        [] => Err(BinaryFault::NotModule),
        [octet, rest @ ..] => Ok((block_type_of(*octet)?, rest)),
    }
}

/// So many value types.
fn val_types_at(
    alloc: Global,
    count: u32,
    octets: &[u8],
) -> Result<(Vec<ValType>, &[u8]), BinaryFault>
    ensures { Gives (λ x. (x.0.items, x.1.now)) result (read (counted count (one_more val_type) []) octets.now) }
{
    let mut found = Vec::new(alloc);
    let mut rest = octets;
    for _ in 0..count {
        let (item, after) = val_type_at(rest)?;
        found.push(item)?;
        rest = after;
    }
    Ok((found, rest))
}

/// A vector of value types.
#[tactic(auto, unfolding(qw_octet_grammar::specs::Reading::read))]
fn val_type_vector_at(alloc: Global, octets: &[u8]) -> Result<(Vec<ValType>, &[u8]), BinaryFault>
    ensures { Gives (λ x. (x.0.items, x.1.now)) result (read (vector val_type) octets.now) }
{
    let (count, rest) = u32_at(octets)?;
    val_types_at(alloc, count, rest)
}

/// The type of a function.
#[tactic(auto, unfolding(qw_octet_grammar::specs::Reading::read))]
fn func_type_at(alloc: Global, octets: &[u8]) -> Result<(FuncType, &[u8]), BinaryFault>
    ensures { Gives (λ x. (signature_of x.0, x.1.now)) result (read func_type octets.now) }
{
    match octets {
        [0x60, rest @ ..] => {
            let (params, rest) = val_type_vector_at(alloc, rest)?;
            let (results, rest) = val_type_vector_at(alloc, rest)?;
            Ok((FuncType { params, results }, rest))
        }
        _ => Err(BinaryFault::NotModule),
    }
}

/// So many types of functions.
fn func_types_at(
    alloc: Global,
    count: u32,
    octets: &[u8],
) -> Result<(Vec<FuncType>, &[u8]), BinaryFault>
    ensures { Gives (λ x. (map signature_of x.0.items, x.1.now)) result (read (counted count (one_more func_type) []) octets.now) }
{
    let mut found = Vec::new(alloc);
    let mut rest = octets;
    for _ in 0..count {
        let (item, after) = func_type_at(alloc, rest)?;
        found.push(item)?;
        rest = after;
    }
    Ok((found, rest))
}

/// A vector of types of functions.
#[tactic(auto, unfolding(qw_octet_grammar::specs::Reading::read))]
pub fn func_type_vector_at(
    alloc: Global,
    octets: &[u8],
) -> Result<(Vec<FuncType>, &[u8]), BinaryFault>
    ensures { Gives (λ x. (map signature_of x.0.items, x.1.now)) result (read (vector func_type) octets.now) }
{
    let (count, rest) = u32_at(octets)?;
    func_types_at(alloc, count, rest)
}

/// Limits, which are the type of a memory.
#[tactic(auto, unfolding(qw_octet_grammar::specs::Reading::read))]
pub fn limits_at(octets: &[u8]) -> Result<(Limits, &[u8]), BinaryFault>
    ensures { Gives (λ x. (x.0, x.1.now)) result (read limits octets.now) }
{
    match octets {
        [0x00, rest @ ..] => {
            let (min, rest) = u32_at(rest)?;
            Ok((Limits { min, max: None }, rest))
        }
        [0x01, rest @ ..] => {
            let (min, rest) = u32_at(rest)?;
            let (max, rest) = u32_at(rest)?;
            Ok((
                Limits {
                    min,
                    max: Some(max),
                },
                rest,
            ))
        }
        _ => Err(BinaryFault::NotModule),
    }
}

/// So many memories.
fn memories_at(
    alloc: Global,
    count: u32,
    octets: &[u8],
) -> Result<(Vec<Limits>, &[u8]), BinaryFault>
    ensures { Gives (λ x. (x.0.items, x.1.now)) result (read (counted count (one_more limits) []) octets.now) }
{
    let mut found = Vec::new(alloc);
    let mut rest = octets;
    for _ in 0..count {
        let (item, after) = limits_at(rest)?;
        found.push(item)?;
        rest = after;
    }
    Ok((found, rest))
}

/// A vector of memories.
#[tactic(auto, unfolding(qw_octet_grammar::specs::Reading::read))]
pub fn memory_vector_at(alloc: Global, octets: &[u8]) -> Result<(Vec<Limits>, &[u8]), BinaryFault>
    ensures { Gives (λ x. (x.0.items, x.1.now)) result (read (vector limits) octets.now) }
{
    let (count, rest) = u32_at(octets)?;
    memories_at(alloc, count, rest)
}

/// Whether a global of this octet may be set.
fn mutability_of(octet: u8) -> Result<bool, BinaryFault>
    ensures { result ≡ mutability_by octet }
{
    match octet {
        0x00 => Ok(false),
        0x01 => Ok(true),
        _ => Err(BinaryFault::NotModule),
    }
}

/// Whether a global may be set.
#[tactic(auto, unfolding(qw_octet_grammar::specs::Reading::read))]
pub fn mutability_at(octets: &[u8]) -> Result<(bool, &[u8]), BinaryFault>
    ensures { Gives (λ x. (x.0, x.1.now)) result (read mutability octets.now) }
{
    match octets {
        [] => Err(BinaryFault::NotModule),
        [octet, rest @ ..] => Ok((mutability_of(*octet)?, rest)),
    }
}
