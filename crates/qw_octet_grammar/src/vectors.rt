//! Vectors of numbers (WebAssembly Core Specification 1.0, 5.1.3).

ghost use Rattle.std.specs.Prelude.{◌≡◌, []};
ghost use Rattle.qw_octet_grammar.specs.Numbers.{u32 as u32_grammar};
ghost use Rattle.qw_octet_grammar.specs.Vectors.{counted, one_more, vector};
ghost use Rattle.qw_octet_grammar.specs.Reading.{Gives, read};

use crate::fault::BinaryFault;
use crate::numbers::u32_at;
use std::alloc::Global;

/// So many unsigned numbers of 32 bits. Nothing is reserved by their count, which may be a lie.
fn numbers_at(alloc: Global, count: u32, octets: &[u8]) -> Result<(Vec<u32>, &[u8]), BinaryFault>
    ensures { Gives (λ x. (x.0.items, x.1.now)) result (read (counted count (one_more u32_grammar) []) octets.now) }
{
    let mut found = Vec::new(alloc);
    let mut rest = octets;
    for _ in 0..count {
        let (item, after) = u32_at(rest)?;
        found.push(item)?;
        rest = after;
    }
    Ok((found, rest))
}

/// A vector of unsigned numbers of 32 bits, and the octets behind it.
///
/// # Errors
///
/// `NotModule` where no rule allows what stands there, and `NoMemory`.
#[tactic(auto, unfolding(crate::specs::Reading::read))]
pub fn number_vector_at(alloc: Global, octets: &[u8]) -> Result<(Vec<u32>, &[u8]), BinaryFault>
    ensures { Gives (λ x. (x.0.items, x.1.now)) result (read (vector u32_grammar) octets.now) }
{
    let (count, rest) = u32_at(octets)?;
    numbers_at(alloc, count, rest)
}
