//! The code of functions (WebAssembly Core Specification 1.0, 5.5.13).

ghost use Rattle.std.specs.Prelude.{◌≡◌, ◌^◌, [], map, length, nat_lt};
ghost use Rattle.qw_octet_grammar.specs.Vectors.{counted, one_more};
ghost use Rattle.qw_octet_grammar.specs.Reading.{Gives, read};
ghost use Rattle.qw_binary.specs.Contents.{function_contents};
ghost use Rattle.qw_binary.specs.Sections.{locals_run, locals_count, locals as locals_grammar, code, next_function, functions};

use crate::read::expression::expression_at;
use crate::read::types::val_type_at;
use qw_module::module::{Function, Locals};
use qw_octet_grammar::fault::BinaryFault;
use qw_octet_grammar::numbers::u32_at;
use qw_octet_grammar::windows::{behind_all, window};
use std::alloc::Global;

/// A run of locals of one type.
#[tactic(auto, unfolding(qw_octet_grammar::specs::Reading::read))]
fn locals_run_at(octets: &[u8]) -> Result<(Locals, &[u8]), BinaryFault>
    ensures { Gives (λ x. (x.0, x.1.now)) result (read locals_run octets.now) }
{
    let (count, rest) = u32_at(octets)?;
    let (ty, rest) = val_type_at(rest)?;
    Ok((Locals { count, ty }, rest))
}

/// So many runs of locals.
fn locals_runs_at(
    alloc: Global,
    count: u32,
    octets: &[u8],
) -> Result<(Vec<Locals>, &[u8]), BinaryFault>
    ensures { Gives (λ x. (x.0.items, x.1.now)) result (read (counted count (one_more locals_run) []) octets.now) }
{
    let mut found = Vec::new(alloc);
    let mut rest = octets;
    for _ in 0..count {
        let (item, after) = locals_run_at(rest)?;
        found.push(item)?;
        rest = after;
    }
    Ok((found, rest))
}

/// Whether runs have fewer than 2^32 locals.
#[tactic(auto, using(crate::proofs::LocalsLemmas::count_more, crate::proofs::LocalsLemmas::few_where))]
pub fn are_few(runs: &[Locals]) -> bool
    ensures { result ≡ nat_lt (locals_count runs.now) (2 ^ 32) }
{
    let mut sum = 0u64;
    for run in runs {
        sum = sum.saturating_add(run.count as u64);
    }
    sum < 0x1_0000_0000
}

/// The locals of a function.
#[tactic(auto, unfolding(qw_octet_grammar::specs::Reading::read))]
fn locals_at(alloc: Global, octets: &[u8]) -> Result<(Vec<Locals>, &[u8]), BinaryFault>
    ensures { Gives (λ x. (x.0.items, x.1.now)) result (read locals_grammar octets.now) }
{
    let (count, rest) = u32_at(octets)?;
    let (runs, rest) = locals_runs_at(alloc, count, rest)?;
    if are_few(&runs) {
        Ok((runs, rest))
    } else {
        Err(BinaryFault::NotModule)
    }
}

/// The code of a function whose type has this index.
#[tactic(auto, unfolding(qw_octet_grammar::specs::Reading::read))]
fn code_at(alloc: Global, type_index: u32, octets: &[u8]) -> Result<(Function, &[u8]), BinaryFault>
    ensures { Gives (λ x. (function_contents x.0, x.1.now)) result (read (code type_index) octets.now) }
{
    let (size, rest) = u32_at(octets)?;
    let (locals, left) = locals_at(alloc, window(rest, size))?;
    let (body, left) = expression_at(alloc, left)?;
    let rest = behind_all(rest, size, left)?;
    Ok((
        Function {
            type_index,
            locals,
            body,
        },
        rest,
    ))
}

/// The code of the functions whose types have these indices.
fn codes_at<'a>(
    alloc: Global,
    type_indices: &[u32],
    octets: &'a [u8],
) -> Result<(Vec<Function>, &'a [u8]), BinaryFault>
    ensures { Gives (λ x. (map function_contents x.0.items, x.1.now)) result (read (counted (length type_indices.now) (next_function type_indices.now) []) octets.now) }
{
    let mut found = Vec::new(alloc);
    let mut rest = octets;
    for type_index in type_indices {
        let (item, after) = code_at(alloc, *type_index, rest)?;
        found.push(item)?;
        rest = after;
    }
    Ok((found, rest))
}

/// The code of the functions whose types have these indices, behind their count.
#[tactic(auto, unfolding(qw_octet_grammar::specs::Reading::read))]
pub fn code_vector_at<'a>(
    alloc: Global,
    type_indices: &[u32],
    octets: &'a [u8],
) -> Result<(Vec<Function>, &'a [u8]), BinaryFault>
    ensures { Gives (λ x. (map function_contents x.0.items, x.1.now)) result (read (functions type_indices.now) octets.now) }
{
    let (count, rest) = u32_at(octets)?;
    if count as usize == type_indices.len() {
        codes_at(alloc, type_indices, rest)
    } else {
        Err(BinaryFault::NotModule)
    }
}
