//! What the sections of a module hold, passed over: read for what follows, with nothing kept of it (WebAssembly Core Specification 1.0,
//! 5.3 and 5.5). Nothing but the sequences that are open in an expression takes memory.

ghost use Rattle.std.specs.Prelude.{◌≡◌};
ghost use Rattle.qw_octet_grammar.specs.Reading.{Gives, read};
ghost use Rattle.qw_octet_grammar.specs.Vectors.{counted};
ghost use Rattle.qw_binary.specs.Types.{val_type};
ghost use Rattle.qw_binary.specs.Sections.{imports, export_kind};
ghost use Rattle.qw_scan.specs.Inner.Passing.{over, all_over, vector_over};
ghost use Rattle.qw_scan.specs.Inner.Over.{types_over, type_over, global_over, export_over, run_over, runs_over, locals_over, code_over, item_over, codes_over, content_over};

use crate::exports::export_kind_at;
use crate::expression::{behind_number_vector, behind_shapes};
use qw_binary::read::imports::import_vector_at;
use qw_binary::read::types::{limits_at, mutability_at, val_type_at};
use qw_octet_grammar::fault::BinaryFault;
use qw_octet_grammar::names::name_at;
use qw_octet_grammar::numbers::u32_at;
use qw_octet_grammar::windows::{behind_all, window};
use std::alloc::Global;

/// What a section holds a vector of, imports and indices apart.
#[derive(Clone, Copy)]
pub(crate) enum Item {
    FuncType,
    Memory,
    Global,
    Export,
    Code,
}

/// What follows so many value types.
fn behind_val_types(count: u32, octets: &[u8]) -> Result<&[u8], BinaryFault>
    ensures { Gives (λ rest. (tt, rest.now)) result (read (all_over count (over val_type)) octets.now) }
{
    let mut rest = octets;
    for _ in 0..count {
        let (_, after) = val_type_at(rest)?;
        rest = after;
    }
    Ok(rest)
}

/// What follows a vector of value types.
#[tactic(auto, unfolding(qw_octet_grammar::specs::Reading::read))]
fn behind_val_type_vector(octets: &[u8]) -> Result<&[u8], BinaryFault>
    ensures { Gives (λ rest. (tt, rest.now)) result (read types_over octets.now) }
{
    let (count, rest) = u32_at(octets)?;
    behind_val_types(count, rest)
}

/// What follows the type of a function.
#[tactic(auto, unfolding(qw_octet_grammar::specs::Reading::read))]
fn behind_type(octets: &[u8]) -> Result<&[u8], BinaryFault>
    ensures { Gives (λ rest. (tt, rest.now)) result (read type_over octets.now) }
{
    match octets {
        [0x60, vectors @ ..] => {
            let results = behind_val_type_vector(vectors)?;
            behind_val_type_vector(results)
        }
        _ => Err(BinaryFault::NotModule),
    }
}

/// What follows a global.
#[tactic(auto, unfolding(qw_octet_grammar::specs::Reading::read))]
fn behind_global(alloc: Global, octets: &[u8]) -> Result<&[u8], BinaryFault>
    ensures { Gives (λ rest. (tt, rest.now)) result (read global_over octets.now) }
{
    let (_, rest) = val_type_at(octets)?;
    let (_, rest) = mutability_at(rest)?;
    let (_, rest) = behind_shapes(alloc, rest)?;
    Ok(rest)
}

/// What follows the kind of an export and its index.
#[tactic(auto, unfolding(qw_octet_grammar::specs::Reading::read))]
fn behind_export_kind(octets: &[u8]) -> Result<&[u8], BinaryFault>
    ensures { Gives (λ rest. (tt, rest.now)) result (read (over export_kind) octets.now) }
{
    let (_, rest) = export_kind_at(octets)?;
    Ok(rest)
}

/// What follows an export.
#[tactic(auto, unfolding(qw_octet_grammar::specs::Reading::read))]
fn behind_export(octets: &[u8]) -> Result<&[u8], BinaryFault>
    ensures { Gives (λ rest. (tt, rest.now)) result (read export_over octets.now) }
{
    let (_, rest) = name_at(octets)?;
    behind_export_kind(rest)
}

/// How many locals so many runs have, and what follows them.
fn runs_at(count: u32, octets: &[u8]) -> Result<(u64, &[u8]), BinaryFault>
    ensures { Gives (λ x. (x.0, x.1.now)) result (read (counted count run_over 0) octets.now) }
{
    let mut sum = 0u64;
    let mut rest = octets;
    for _ in 0..count {
        let (more, after) = u32_at(rest)?;
        let (_, after) = val_type_at(after)?;
        sum += more as u64;
        rest = after;
    }
    Ok((sum, rest))
}

/// What follows the locals of a function.
#[tactic(auto, unfolding(qw_octet_grammar::specs::Reading::read))]
fn behind_locals(octets: &[u8]) -> Result<&[u8], BinaryFault>
    ensures { Gives (λ rest. (tt, rest.now)) result (read locals_over octets.now) }
{
    let (count, rest) = u32_at(octets)?;
    let (sum, rest) = runs_at(count, rest)?;
    if sum < 0x1_0000_0000 {
        Ok(rest)
    } else {
        Err(BinaryFault::NotModule)
    }
}

/// What follows the code of a function.
#[tactic(auto, unfolding(qw_octet_grammar::specs::Reading::read))]
fn behind_code(alloc: Global, octets: &[u8]) -> Result<&[u8], BinaryFault>
    ensures { Gives (λ rest. (tt, rest.now)) result (read code_over octets.now) }
{
    let (size, rest) = u32_at(octets)?;
    let body = behind_locals(window(rest, size))?;
    let (_, left) = behind_shapes(alloc, body)?;
    behind_all(rest, size, left)
}

impl Item {
    /// What follows one.
    #[tactic(auto, unfolding(qw_octet_grammar::specs::Reading::read))]
    pub(crate) fn behind(self, alloc: Global, octets: &[u8]) -> Result<&[u8], BinaryFault>
        ensures { Gives (λ rest. (tt, rest.now)) result (read (item_over self) octets.now) }
    {
        match self {
            Item::FuncType => behind_type(octets),
            Item::Memory => {
                let (_, rest) = limits_at(octets)?;
                Ok(rest)
            }
            Item::Global => behind_global(alloc, octets),
            Item::Export => behind_export(octets),
            Item::Code => behind_code(alloc, octets),
        }
    }

    /// What follows so many of them.
    fn behind_all(self, alloc: Global, count: u32, octets: &[u8]) -> Result<&[u8], BinaryFault>
        ensures { Gives (λ rest. (tt, rest.now)) result (read (all_over count (item_over self)) octets.now) }
    {
        let mut rest = octets;
        for _ in 0..count {
            rest = self.behind(alloc, rest)?;
        }
        Ok(rest)
    }

    /// What follows a vector of them.
    #[tactic(auto, unfolding(qw_octet_grammar::specs::Reading::read))]
    fn behind_vector(self, alloc: Global, octets: &[u8]) -> Result<&[u8], BinaryFault>
        ensures { Gives (λ rest. (tt, rest.now)) result (read (vector_over (item_over self)) octets.now) }
    {
        let (count, rest) = u32_at(octets)?;
        self.behind_all(alloc, count, rest)
    }
}

/// What follows the codes of so many functions.
#[tactic(auto, unfolding(qw_octet_grammar::specs::Reading::read))]
fn behind_codes(alloc: Global, own: usize, octets: &[u8]) -> Result<&[u8], BinaryFault>
    ensures { Gives (λ rest. (tt, rest.now)) result (read (codes_over own) octets.now) }
{
    let (count, rest) = u32_at(octets)?;
    if count as usize == own {
        Item::Code.behind_all(alloc, count, rest)
    } else {
        Err(BinaryFault::NotModule)
    }
}

/// What follows the imports.
#[tactic(auto, unfolding(qw_octet_grammar::specs::Reading::read))]
fn behind_imports(alloc: Global, octets: &[u8]) -> Result<&[u8], BinaryFault>
    ensures { Gives (λ rest. (tt, rest.now)) result (read (over imports) octets.now) }
{
    let (_, rest) = import_vector_at(alloc, octets)?;
    Ok(rest)
}

/// What follows what a section of this id holds, of a module with so many functions of its own.
pub(crate) fn behind_content(
    alloc: Global,
    id: u8,
    own: usize,
    octets: &[u8],
) -> Result<&[u8], BinaryFault>
    ensures { Gives (λ rest. (tt, rest.now)) result (read (content_over own id) octets.now) }
{
    match id {
        1 => Item::FuncType.behind_vector(alloc, octets),
        2 => behind_imports(alloc, octets),
        3 => behind_number_vector(octets),
        5 => Item::Memory.behind_vector(alloc, octets),
        6 => Item::Global.behind_vector(alloc, octets),
        7 => Item::Export.behind_vector(alloc, octets),
        10 => behind_codes(alloc, own, octets),
        _ => Err(BinaryFault::NotModule),
    }
}
