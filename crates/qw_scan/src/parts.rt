//! Whether the parts of a module are valid, bodies apart (WebAssembly Core Specification 1.0, 3.2 and 3.4).

ghost use Rattle.std.specs.Prelude.{◌≡◌, ◌<◌, ◌↔◌, All, IsTrue, IfSome, IfErr, OnOk};
ghost use Rattle.qw_module.specs.declared.module.Module.{Module};
ghost use Rattle.qw_binary.specs.Contents.{contents_of};
ghost use Rattle.qw_valid.specs.ValidFaults.{ArePartsValid, IsFault};
ghost use Rattle.qw_scan.specs.Inner.Outlines.{contents_in};
ghost use Rattle.qw_scan.specs.Inner.Parts.{HasOneResult, IsImportOf, Describes, TestsPart, decided};

use crate::bodies::memories_of;
use crate::exports::{Counts, exports_hold, names_differ};
use crate::globals::globals_hold;
use crate::memories::{is_memory, memories_hold};
use crate::outline::Outline;
use crate::tables::{Tables, export_offsets};
use crate::types::Types;
use qw_module::module::Import;
use qw_valid::imports::{imported_functions, imported_memories};
use qw_valid::valid::{Part, ValidFault};
use std::alloc::Global;

/// Whether each type of a function has at most one result. `None` is want of memory.
pub(crate) fn types_hold(types: &Types) -> Option<bool>
    ensures { IfSome result (λ holds. IsTrue holds ↔ All HasOneResult types.now) }
{
    types.have_one_result()
}

fn is_import(import: Import, types: usize) -> bool
    ensures { IsTrue result ↔ IsImportOf types import }
{
    match import {
        Import::Memory(limits) => is_memory(limits),
        Import::Raise(ty) | Import::Pages(ty) => (ty as usize) < types,
    }
}

/// Whether each import has one of so many types, or limits that a memory may have.
pub(crate) fn imports_hold(imports: &[Import], types: usize) -> bool
    ensures { IsTrue result ↔ All (IsImportOf types) imports.now }
{
    imports.iter().all(|import| is_import(*import, types))
}

/// Whether each function has one of so many types.
pub(crate) fn functions_hold(indices: &[u32], types: usize) -> bool
    ensures { IsTrue result ↔ All (λ index. index < types) indices.now }
{
    indices.iter().all(|index| (*index as usize) < types)
}

fn are_types(octets: &[u8], outline: Outline, tables: &Tables) -> Option<bool>
    requires { Describes octets.now outline tables.now }
    ensures { TestsPart octets.now outline Part.Types result }
{
    types_hold(&Types::new(octets, &tables.types))
}

fn are_imports(octets: &[u8], outline: Outline, tables: &Tables) -> Option<bool>
    requires { Describes octets.now outline tables.now }
    ensures { TestsPart octets.now outline Part.Imports result }
{
    Some(imports_hold(&tables.imports, tables.types.len()))
}

fn are_functions(octets: &[u8], outline: Outline, tables: &Tables) -> Option<bool>
    requires { Describes octets.now outline tables.now }
    ensures { TestsPart octets.now outline Part.Functions result }
{
    let imported = imported_functions(&tables.imports);
    let (_, own) = tables.functions.split_at(imported);
    Some(functions_hold(own, tables.types.len()))
}

fn are_memories(octets: &[u8], outline: Outline, tables: &Tables) -> Option<bool>
    requires { Describes octets.now outline tables.now }
    ensures { TestsPart octets.now outline Part.Memory result }
{
    let imported = imported_memories(&tables.imports);
    memories_hold(octets, outline.memories, imported)
}

fn are_globals(octets: &[u8], outline: Outline, tables: &Tables) -> Option<bool>
    requires { Describes octets.now outline tables.now }
    ensures { TestsPart octets.now outline Part.Globals result }
{
    globals_hold(octets, outline.globals)
}

fn are_exports(alloc: Global, octets: &[u8], outline: Outline, tables: &Tables) -> Option<bool>
    requires { Describes octets.now outline tables.now }
    ensures { TestsPart octets.now outline Part.Exports result }
{
    let counts = Counts {
        functions: tables.functions.len(),
        memories: memories_of(octets, outline.memories, &tables.imports)?,
        globals: tables.globals.len(),
    };
    let offsets = export_offsets(alloc, octets, outline.exports)?;
    if !exports_hold(octets, &offsets, counts)? {
        return Some(false);
    }
    names_differ(alloc, octets, &offsets)
}

/// What the test of a part answers, where `None` is want of memory.
fn decide(part: Part, holds: Option<bool>) -> Result<(), ValidFault>
    ensures { result ≡ decided part holds }
{
    match holds {
        Some(true) => Ok(()),
        Some(false) => Err(ValidFault::Part(part)),
        None => Err(ValidFault::NoMemory),
    }
}

/// Whether the parts of the module other than bodies are valid that octets spell, and otherwise which is the first that isn't.
pub(crate) fn check_parts(
    alloc: Global,
    octets: &[u8],
    outline: Outline,
    tables: &Tables,
) -> Result<(), ValidFault>
    requires { Describes octets.now outline tables.now }
    ensures valid { (m : Module) → contents_of m ≡ contents_in octets.now outline → OnOk result (ArePartsValid m) }
    ensures fault { (m : Module) → contents_of m ≡ contents_in octets.now outline → IfErr result (λ fault. IsFault fault m) }
{
    decide(Part::Types, are_types(octets, outline, tables))?;
    decide(Part::Imports, are_imports(octets, outline, tables))?;
    decide(Part::Functions, are_functions(octets, outline, tables))?;
    decide(Part::Memory, are_memories(octets, outline, tables))?;
    decide(Part::Globals, are_globals(octets, outline, tables))?;
    decide(Part::Exports, are_exports(alloc, octets, outline, tables))
}
