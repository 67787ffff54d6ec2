//! What a module's bodies are checked under, in tables of as many things as were counted when the octets were gone through
//! (WebAssembly Core Specification 1.0, 5.5). All that is read here was read once before.

ghost use Rattle.std.specs.Prelude.{◌≡◌, [], ◌++◌, map, drop, All, IfSome};
ghost use Rattle.std.specs.List.{filter_map};
ghost use Rattle.qw_octet_grammar.specs.Numbers.{u32 as u32_grammar};
ghost use Rattle.qw_octet_grammar.specs.Vectors.{counted, one_more, vector};
ghost use Rattle.qw_octet_grammar.specs.Reading.{Gives, read};
ghost use Rattle.qw_module.specs.Validity.{imported_function};
ghost use Rattle.qw_binary.specs.Types.{func_type};
ghost use Rattle.qw_binary.specs.Contents.{GlobalContents};
ghost use Rattle.qw_binary.specs.Sections.{imports as imports_grammar, global, export};
ghost use Rattle.qw_scan.specs.Read.{HasRead};
ghost use Rattle.qw_scan.specs.Inner.Over.{item_over};
ghost use Rattle.qw_scan.specs.Inner.Outlines.{values_at, IsThere, IsOutline};
ghost use Rattle.qw_scan.specs.Inner.Offsets.{offsets, vector_offsets, global_kind};
ghost use Rattle.qw_scan.specs.Inner.TypesAt.{signature_at, IsTypeAt};
ghost use Rattle.qw_scan.specs.Inner.ExportsAt.{export_at, IsExportAt};
ghost use Rattle.qw_scan.specs.Inner.Tables.{global_of};
ghost use Rattle.qw_scan.specs.Inner.Tabled.{IsTabled};

use crate::expression::behind_shapes;
use crate::outline::Outline;
use crate::over::Item;
use crate::scope::GlobalKind;
use crate::types::from;
use qw_binary::read::imports::import_vector_at;
use qw_binary::read::types::{mutability_at, val_type_at};
use qw_module::module::Import;
use qw_octet_grammar::fault::BinaryFault;
use qw_octet_grammar::numbers::u32_at;
use std::alloc::Global;

/// The tables of a module, apart from its exports.
#[derive(Drop)]
pub(crate) struct Tables {
    /// Where each type of a function begins in the octets.
    pub(crate) types: Vec<u32>,
    /// Two at most.
    pub(crate) imports: Vec<Import>,
    /// The index of each function's type, the imported ones first.
    pub(crate) functions: Vec<u32>,
    pub(crate) globals: Vec<GlobalKind>,
}

/// Where so many things begin that stand one behind the other, the first behind so many octets. `None` is want of memory.
fn offsets_from(
    alloc: Global,
    item: Item,
    octets: &[u8],
    count: u32,
    first: usize,
) -> Option<Vec<u32>>
    ensures { IfSome result (λ v. v.items ≡ offsets (item_over item) octets.now count first) }
{
    let mut found = Vec::with_capacity(alloc, count as usize).ok()?;
    let mut at = first;
    for _ in 0..count {
        let offset = u32::try_from(at).ok()?;
        found.push(offset).ok()?;
        let Ok(after) = item.behind(alloc, from(octets, at)) else {
            return None;
        };
        at = octets.len().saturating_sub(after.len());
    }
    Some(found)
}

/// Where the things begin of the vector that stands behind so many octets. `None` is want of memory.
fn offsets_at(alloc: Global, item: Item, octets: &[u8], at: Option<usize>) -> Option<Vec<u32>>
    ensures { IfSome result (λ v. v.items ≡ vector_offsets (item_over item) octets.now at) }
{
    let Some(at) = at else {
        return Some(Vec::new(alloc));
    };
    let Ok((count, rest)) = u32_at(from(octets, at)) else {
        return None;
    };
    offsets_from(
        alloc,
        item,
        octets,
        count,
        octets.len().saturating_sub(rest.len()),
    )
}

/// Where the types of functions begin. `None` is want of memory.
pub(crate) fn type_offsets(alloc: Global, octets: &[u8], at: Option<usize>) -> Option<Vec<u32>>
    ensures { IsThere (vector func_type) octets.now at →
        IfSome result (λ v. All (IsTypeAt octets.now) v.items × (map (signature_at octets.now) v.items ≡ values_at (vector func_type) octets.now at)) }
{
    offsets_at(alloc, Item::FuncType, octets, at)
}

/// Where the exports begin. `None` is want of memory.
pub(crate) fn export_offsets(alloc: Global, octets: &[u8], at: Option<usize>) -> Option<Vec<u32>>
    ensures { IsThere (vector export) octets.now at →
        IfSome result (λ v. All (IsExportAt octets.now) v.items × (map (export_at octets.now) v.items ≡ values_at (vector export) octets.now at)) }
{
    offsets_at(alloc, Item::Export, octets, at)
}

/// The imports. `None` is want of memory.
pub(crate) fn imports_of(alloc: Global, octets: &[u8], at: Option<usize>) -> Option<Vec<Import>>
    ensures { IsThere imports_grammar octets.now at → IfSome result (λ v. v.items ≡ values_at imports_grammar octets.now at) }
{
    let Some(at) = at else {
        return Some(Vec::new(alloc));
    };
    let Ok((imports, _)) = import_vector_at(alloc, from(octets, at)) else {
        return None;
    };
    Some(imports)
}

/// The index of an imported function's type.
fn function_of(import: Import) -> Option<u32>
    ensures { result ≡ imported_function import }
{
    match import {
        Import::Raise(ty) | Import::Pages(ty) => Some(ty),
        Import::Memory(_) => None,
    }
}

/// These numbers, and behind them the indices of the types of the imported functions. `None` is want of memory.
fn with_imported(numbers: Vec<u32>, imports: &[Import]) -> Option<Vec<u32>>
    ensures { IfSome result (λ v. v.items ≡ numbers.items ++ filter_map imported_function imports.now) }
{
    let mut found = numbers;
    for import in imports {
        if let Some(ty) = function_of(*import) {
            found.push(ty).ok()?;
        }
    }
    Some(found)
}

/// These numbers, and behind them so many that octets begin with. `None` is want of memory.
fn with_numbers(numbers: Vec<u32>, count: u32, octets: &[u8]) -> Option<Vec<u32>>
    ensures { IfSome result (λ v. HasRead v.items (read (counted count (one_more u32_grammar) numbers.items) octets.now)) }
{
    let mut found = numbers;
    let mut rest = octets;
    for _ in 0..count {
        let Ok((number, after)) = u32_at(rest) else {
            return None;
        };
        found.push(number).ok()?;
        rest = after;
    }
    Some(found)
}

/// The index of each function's type, the imported ones first. `None` is want of memory.
pub(crate) fn function_types(
    alloc: Global,
    octets: &[u8],
    imports: &[Import],
    at: Option<usize>,
) -> Option<Vec<u32>>
    ensures { IsThere (vector u32_grammar) octets.now at →
        IfSome result (λ v. v.items ≡ filter_map imported_function imports.now ++ values_at (vector u32_grammar) octets.now at) }
{
    let Some(at) = at else {
        return with_imported(Vec::with_capacity(alloc, imports.len()).ok()?, imports);
    };
    let Ok((count, rest)) = u32_at(from(octets, at)) else {
        return None;
    };
    let room = Vec::with_capacity(alloc, imports.len() + count as usize).ok()?;
    with_numbers(with_imported(room, imports)?, count, rest)
}

/// The type of a global.
#[tactic(auto, unfolding(qw_octet_grammar::specs::Reading::read))]
fn global_kind_at(alloc: Global, octets: &[u8]) -> Result<(GlobalKind, &[u8]), BinaryFault>
    ensures { Gives (λ x. (global_of x.0, x.1.now)) result (read global_kind octets.now) }
{
    let (ty, rest) = val_type_at(octets)?;
    let (mutable, rest) = mutability_at(rest)?;
    let (_, rest) = behind_shapes(alloc, rest)?;
    Ok((GlobalKind { ty, mutable }, rest))
}

/// The types of so many globals. `None` is want of memory.
fn global_kinds_from(alloc: Global, octets: &[u8], count: u32) -> Option<Vec<GlobalKind>>
    ensures { IfSome result (λ v. HasRead (map global_of v.items) (read (counted count (one_more global_kind) []) octets.now)) }
{
    let mut found = Vec::with_capacity(alloc, count as usize).ok()?;
    let mut rest = octets;
    for _ in 0..count {
        let Ok((kind, after)) = global_kind_at(alloc, rest) else {
            return None;
        };
        found.push(kind).ok()?;
        rest = after;
    }
    Some(found)
}

/// The types of the globals. `None` is want of memory.
pub(crate) fn global_kinds(
    alloc: Global,
    octets: &[u8],
    at: Option<usize>,
) -> Option<Vec<GlobalKind>>
    ensures { IsThere (vector global) octets.now at →
        IfSome result (λ v. map global_of v.items ≡ map (λ (g : GlobalContents). g.type) (values_at (vector global) octets.now at)) }
{
    let Some(at) = at else {
        return Some(Vec::new(alloc));
    };
    let Ok((count, rest)) = u32_at(from(octets, at)) else {
        return None;
    };
    global_kinds_from(alloc, rest, count)
}

/// The tables of the module that an outline is of. `None` is want of memory.
pub(crate) fn tables_of(alloc: Global, octets: &[u8], outline: Outline) -> Option<Tables>
    ensures { IsOutline octets.now outline → IfSome result (IsTabled octets.now outline) }
{
    let types = type_offsets(alloc, octets, outline.types)?;
    let imports = imports_of(alloc, octets, outline.imports)?;
    let functions = function_types(alloc, octets, &imports, outline.indices)?;
    let globals = global_kinds(alloc, octets, outline.globals)?;
    Some(Tables {
        types,
        imports,
        functions,
        globals,
    })
}
