//! Whether memories are valid, by their octets (WebAssembly Core Specification 1.0, 3.2.4 and 3.4.3).

ghost use Rattle.std.specs.Prelude.{[], ◌↔◌, ◌+◌, ◌≤◌, All, IsTrue, IfSome, length};
ghost use Rattle.qw_octet_grammar.specs.Reading.{read};
ghost use Rattle.qw_octet_grammar.specs.Vectors.{counted, one_more, vector};
ghost use Rattle.qw_module.specs.Validity.{IsValidMemory};
ghost use Rattle.qw_binary.specs.Types.{limits as limits_grammar};
ghost use Rattle.qw_scan.specs.Inner.Outlines.{values_at, IsThere};
ghost use Rattle.qw_scan.specs.Inner.Tests.{Tells, TellsAll};

use crate::types::from;
use qw_binary::read::types::limits_at;
use qw_module::module::Limits;
use qw_octet_grammar::numbers::u32_at;
use qw_valid::operands::Refusal;

/// The greatest number of pages that a memory's limits may name (3.2.4).
const MOST_PAGES: u32 = 65536;

pub(crate) fn is_memory(limits: Limits) -> bool
    ensures { IsTrue result ↔ IsValidMemory limits }
{
    limits.min <= MOST_PAGES
        && match limits.max {
            None => true,
            Some(greatest) => greatest <= MOST_PAGES && limits.min <= greatest,
        }
}

/// What follows the limits of a memory that is valid.
fn behind_memory(octets: &[u8]) -> Result<&[u8], Refusal>
    ensures { Tells IsValidMemory result (read limits_grammar octets.now) }
{
    let Ok((limits, rest)) = limits_at(octets) else {
        return Err(Refusal::NoMemory);
    };
    if is_memory(limits) {
        Ok(rest)
    } else {
        Err(Refusal::IllTyped)
    }
}

/// Whether so many memories are valid. `None` is want of memory.
fn are_memories(count: u32, octets: &[u8]) -> Option<bool>
    ensures { TellsAll IsValidMemory result (read (counted count (one_more limits_grammar) []) octets.now) }
{
    let mut rest = octets;
    for _ in 0..count {
        match behind_memory(rest) {
            Ok(after) => rest = after,
            Err(Refusal::IllTyped) => return Some(false),
            Err(Refusal::NoMemory) => return None,
        }
    }
    Some(true)
}

/// Whether the memories behind so many of a module's octets are valid, and with the imported ones no more than one. `None` is want of memory.
pub(crate) fn memories_hold(octets: &[u8], at: Option<usize>, imported: usize) -> Option<bool>
    ensures { IsThere (vector limits_grammar) octets.now at → IfSome result (λ hold. IsTrue hold ↔
        (All IsValidMemory (values_at (vector limits_grammar) octets.now at) × (imported + length (values_at (vector limits_grammar) octets.now at) ≤ 1))) }
{
    let Some(at) = at else {
        return Some(imported <= 1);
    };
    let Ok((count, rest)) = u32_at(from(octets, at)) else {
        return None;
    };
    if imported > 1 {
        return Some(false);
    }
    if count as usize > 1 - imported {
        return Some(false);
    }
    are_memories(count, rest)
}
