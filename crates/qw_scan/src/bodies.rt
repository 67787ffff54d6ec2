//! Whether the bodies of all functions are typed, each by its octets (WebAssembly Core Specification 1.0, 3.4.1 and 5.5.13). All that is read
//! here was read once before.

ghost use Rattle.std.specs.Prelude.{◌≡◌, ◌+◌, ◌<◌, ◌^◌, ◌++◌, ℕ, List, [], length, map, reverse, All, Ok, IfOk, IfErr, IfSome, OnOk};
ghost use Rattle.std.specs.List.{filter_map};
ghost use Rattle.qw_octet_grammar.specs.Reading.{read};
ghost use Rattle.qw_octet_grammar.specs.Vectors.{counted, vector};
ghost use Rattle.qw_module.specs.declared.module.Module.{Module};
ghost use Rattle.qw_module.specs.Validity.{imported_function, imported_memory, IsValidFunction};
ghost use Rattle.qw_module.specs.Typing.{types_of};
ghost use Rattle.qw_binary.specs.Contents.{FunctionContents, contents_of};
ghost use Rattle.qw_binary.specs.Types.{limits};
ghost use Rattle.qw_valid.specs.ValidFaults.{ArePartsValid, IsFault};
ghost use Rattle.qw_binary.specs.Sections.{code, next_function};
ghost use Rattle.qw_scan.specs.Inner.Outlines.{values_at, contents_in, IsThere, IsOutline};
ghost use Rattle.qw_scan.specs.Inner.Tabled.{IsTabled};
ghost use Rattle.qw_scan.specs.Inner.TypesAt.{type_by};
ghost use Rattle.qw_scan.specs.Inner.Bodies.{outside_by, outside_in, code_held, fault_in, Judges, JudgesAll};

use crate::body::{BodyFault, check_body};
use crate::expression::behind_expression;
use crate::locals::locals_at;
use crate::outline::Outline;
use crate::scope::{GlobalKind, Scope};
use crate::tables::Tables;
use crate::types::{Types, from, type_of};
use qw_module::instruction::BlockType;
use qw_module::module::Import;
use qw_octet_grammar::numbers::u32_at;
use qw_octet_grammar::windows::{behind, window};
use qw_valid::imports::{imported_functions, imported_memories};
use qw_valid::valid::ValidFault;
use std::alloc::Global;

/// What all bodies of a module are checked under.
#[derive(Clone, Copy)]
pub(crate) struct ModuleScope<'a> {
    pub(crate) types: &'a Types<'a>,
    /// The index of each function's type, the imported ones first.
    pub(crate) functions: &'a [u32],
    pub(crate) globals: &'a [GlobalKind],
    /// How many memories there are.
    pub(crate) memories: usize,
}

/// The result of a function, by the octets of its results. `None` where there are several, which no function of a valid module has.
fn result_of(results: &[u8]) -> Option<BlockType>
    ensures { IfSome result (λ ty. types_of ty ≡ reverse (map type_by results.now)) }
{
    match results {
        [] => Some(None),
        [octet] => Some(Some(type_of(*octet))),
        _ => None,
    }
}

/// Whether the body is typed that octets hold behind the size of a function's code, whose type has this index.
fn check_code(
    alloc: Global,
    module_scope: ModuleScope,
    index: u32,
    octets: &[u8],
) -> Result<(), BodyFault>
    ensures { (f : FunctionContents) (rest : List ℕ) → read (code_held index) octets.now ≡ Ok (f, rest) → Judges (outside_in module_scope.entry) module_scope.entry.types.now f result }
{
    let Ok(ty) = module_scope.types.get(index) else {
        return Err(BodyFault::NoMemory);
    };
    let Some(result_type) = result_of(ty.results) else {
        return Err(BodyFault::NoMemory);
    };
    let Some((locals, body)) = locals_at(alloc, octets) else {
        return Err(BodyFault::NoMemory);
    };
    let Ok((deepest, _)) = behind_expression(alloc, body) else {
        return Err(BodyFault::NoMemory);
    };
    let scope = Scope {
        types: module_scope.types,
        functions: module_scope.functions,
        globals: module_scope.globals,
        memories: module_scope.memories,
        parameters: ty.params,
        locals: &locals,
        result: result_type,
    };
    check_body(alloc, scope, deepest, body)
}

/// What follows the code of a function, where its body is typed.
fn behind_code<'a>(
    alloc: Global,
    module_scope: ModuleScope,
    index: u32,
    octets: &'a [u8],
) -> Result<&'a [u8], BodyFault>
    ensures judges { (f : FunctionContents) (rest : List ℕ) → read (code index) octets.now ≡ Ok (f, rest) → Judges (outside_in module_scope.entry) module_scope.entry.types.now f result }
    ensures behind { (f : FunctionContents) (rest : List ℕ) → read (code index) octets.now ≡ Ok (f, rest) → IfOk result (λ after. after.now ≡ rest) }
{
    let Ok((size, held)) = u32_at(octets) else {
        return Err(BodyFault::NoMemory);
    };
    check_code(alloc, module_scope, index, window(held, size))?;
    let Ok(after) = behind(held, size) else {
        return Err(BodyFault::NoMemory);
    };
    Ok(after)
}

/// The fault of the body of a function of an index.
fn fault_in(func: usize, fault: BodyFault) -> ValidFault
    ensures { result ≡ fault_in func fault }
{
    match fault {
        BodyFault::At(at) => ValidFault::Body { func, at },
        BodyFault::NoMemory => ValidFault::NoMemory,
    }
}

/// Whether the bodies of a module's own functions are typed, the indices of whose types are given, and otherwise which is the first that
/// isn't, so many functions being imported.
fn check_codes(
    alloc: Global,
    module_scope: ModuleScope,
    imported: usize,
    own: &[u32],
    octets: &[u8],
) -> Result<(), ValidFault>
    requires { imported + length own.now < 2 ^ 64 }
    ensures { (fs : List FunctionContents) (last : List ℕ) → read (counted (length own.now) (next_function own.now) []) octets.now ≡ Ok (fs, last) → JudgesAll (outside_in module_scope.entry) module_scope.entry.types.now imported fs result }
{
    let mut rest = octets;
    for (number, index) in own.iter().enumerate() {
        match behind_code(alloc, module_scope, *index, rest) {
            Ok(after) => rest = after,
            Err(fault) => return Err(fault_in(imported + number, fault)),
        }
    }
    Ok(())
}

/// How many memories there are: the imported ones, and those that stand behind so many octets. `None` is want of memory.
pub(crate) fn memories_of(octets: &[u8], at: Option<usize>, imports: &[Import]) -> Option<usize>
    ensures { IsThere (vector limits) octets.now at → IfSome result (λ n. n ≡ length (filter_map imported_memory imports.now ++ values_at (vector limits) octets.now at)) }
{
    let imported = imported_memories(imports);
    let Some(at) = at else {
        return Some(imported);
    };
    let Ok((count, _)) = u32_at(from(octets, at)) else {
        return None;
    };
    imported.checked_add(count as usize)
}

/// Whether the bodies are typed of the module that an outline is of.
fn judge_bodies(
    alloc: Global,
    octets: &[u8],
    outline: Outline,
    tables: &Tables,
) -> Result<(), ValidFault>
    requires outline { IsOutline octets.now outline }
    requires tables { IsTabled octets.now outline tables.now }
    ensures { JudgesAll (outside_by (contents_in octets.now outline)) (contents_in octets.now outline).types (length (filter_map imported_function (contents_in octets.now outline).imports))
        (contents_in octets.now outline).functions result }
{
    let Some(at) = outline.codes else {
        return Ok(());
    };
    let Ok((_, codes)) = u32_at(from(octets, at)) else {
        return Err(ValidFault::NoMemory);
    };
    let Some(memories) = memories_of(octets, outline.memories, &tables.imports) else {
        return Err(ValidFault::NoMemory);
    };
    let types = Types::new(octets, &tables.types);
    let module_scope = ModuleScope {
        types: &types,
        functions: &tables.functions,
        globals: &tables.globals,
        memories,
    };
    let imported = imported_functions(&tables.imports);
    let (_, own) = tables.functions.split_at(imported);
    check_codes(alloc, module_scope, imported, own, codes)
}

/// Whether the bodies are typed of the module that an outline is of, and otherwise which is the first function that isn't, and there the first
/// place refused.
pub(crate) fn check_bodies(
    alloc: Global,
    octets: &[u8],
    outline: Outline,
    tables: &Tables,
) -> Result<(), ValidFault>
    requires outline { IsOutline octets.now outline }
    requires tables { IsTabled octets.now outline tables.now }
    ensures valid { (m : Module) → contents_of m ≡ contents_in octets.now outline → ArePartsValid m → OnOk result (All (IsValidFunction m) m.functions.items) }
    ensures fault { (m : Module) → contents_of m ≡ contents_in octets.now outline → ArePartsValid m → IfErr result (λ fault. IsFault fault m) }
{
    judge_bodies(alloc, octets, outline, tables)
}
