//! Globals (WebAssembly Core Specification 1.0, 5.5.9).

ghost use Rattle.std.specs.Prelude.{◌≡◌, [], map};
ghost use Rattle.qw_octet_grammar.specs.Vectors.{counted, one_more, vector};
ghost use Rattle.qw_octet_grammar.specs.Reading.{Gives, read};
ghost use Rattle.qw_binary.specs.Contents.{global_contents};
ghost use Rattle.qw_binary.specs.Sections.{global};

use crate::read::expression::expression_at;
use crate::read::types::{mutability_at, val_type_at};
use qw_module::module::Global as ModuleGlobal;
use qw_octet_grammar::fault::BinaryFault;
use qw_octet_grammar::numbers::u32_at;
use std::alloc::Global;

/// A global.
#[tactic(auto, unfolding(qw_octet_grammar::specs::Reading::read))]
fn global_at(alloc: Global, octets: &[u8]) -> Result<(ModuleGlobal, &[u8]), BinaryFault>
    ensures { Gives (λ x. (global_contents x.0, x.1.now)) result (read global octets.now) }
{
    let (ty, rest) = val_type_at(octets)?;
    let (mutable, rest) = mutability_at(rest)?;
    let (init, rest) = expression_at(alloc, rest)?;
    Ok((ModuleGlobal { ty, mutable, init }, rest))
}

/// So many globals.
fn globals_at(
    alloc: Global,
    count: u32,
    octets: &[u8],
) -> Result<(Vec<ModuleGlobal>, &[u8]), BinaryFault>
    ensures { Gives (λ x. (map global_contents x.0.items, x.1.now)) result (read (counted count (one_more global) []) octets.now) }
{
    let mut found = Vec::new(alloc);
    let mut rest = octets;
    for _ in 0..count {
        let (item, after) = global_at(alloc, rest)?;
        found.push(item)?;
        rest = after;
    }
    Ok((found, rest))
}

/// A vector of globals.
#[tactic(auto, unfolding(qw_octet_grammar::specs::Reading::read))]
pub fn global_vector_at(
    alloc: Global,
    octets: &[u8],
) -> Result<(Vec<ModuleGlobal>, &[u8]), BinaryFault>
    ensures { Gives (λ x. (map global_contents x.0.items, x.1.now)) result (read (vector global) octets.now) }
{
    let (count, rest) = u32_at(octets)?;
    globals_at(alloc, count, rest)
}
