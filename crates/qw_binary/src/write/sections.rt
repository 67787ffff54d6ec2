//! Sections (WebAssembly Core Specification 1.0, 5.5.2), each where it holds something.

ghost use Rattle.std.specs.Prelude.{◌≡◌, IfErr, OnOk, List, ℕ, [], map};
ghost use Rattle.std.specs.List.{AllByRecursion};
ghost use Rattle.qw_octet_grammar.specs.Grammar.{Spells};
ghost use Rattle.qw_octet_grammar.specs.declared.write.WriteFault.TheVariants.{NotSpelled};
ghost use Rattle.qw_binary.specs.Sections.{imports as imports_grammar, functions as functions_grammar};
ghost use Rattle.qw_module.specs.Validity.{signature_of};
ghost use Rattle.qw_binary.specs.Contents.{Contents, function_contents, global_contents, export_contents};
ghost use Rattle.qw_binary.specs.Inner.Parts.{IsInitSpelled, type_index_of};
ghost use Rattle.qw_binary.specs.Inner.Written.{Written, PutsSection};

use crate::write::exports::put_exports;
use crate::write::functions::{put_codes, put_type_indices};
use crate::write::globals::put_globals;
use crate::write::imports::put_imports;
use crate::write::types::{put_func_types, put_memories};
use qw_module::module::{Export, FuncType, Function, Global as ModuleGlobal, Import, Limits};
use qw_octet_grammar::write::{WriteFault, put_size};
use std::alloc::{AllocError, Global};

/// Writes a section behind its id and its size.
#[tactic(auto, using(crate::proofs::WriteSections::puts_section))]
fn put_section(id: u8, content: &[u8], out: &mut Vec<u8>) -> Result<(), AllocError>
    ensures { OnOk result (PutsSection id content.now out.old.items out.new.items) }
{
    out.push(id)?;
    put_size(content.len(), out)?;
    out.extend_from_slice(content)?;
    Ok(())
}

/// Writes the types of functions.
#[tactic(auto, using(crate::proofs::WriteSections::types_written, crate::proofs::WriteSections::later))]
pub fn put_type_section(
    alloc: Global,
    types: &[FuncType],
    out: &mut Vec<u8>,
) -> Result<(), AllocError>
    ensures { OnOk result ((indices : List ℕ) (c : Contents) → c.types ≡ [] → Written 0 indices c out.old.items → Written 1 indices (record c { types = map signature_of types.now }) out.new.items) }
{
    if types.is_empty() {
        return Ok(());
    }
    let mut content = Vec::new(alloc);
    put_func_types(types, &mut content)?;
    put_section(1, &content, out)
}

/// Writes the imports.
#[tactic(auto, using(crate::proofs::WriteSections::imports_written, crate::proofs::WriteSections::later))]
pub fn put_import_section(
    alloc: Global,
    imports: &[Import],
    out: &mut Vec<u8>,
) -> Result<(), WriteFault>
    ensures written { OnOk result ((indices : List ℕ) (c : Contents) → c.imports ≡ [] → Written 1 indices c out.old.items → Written 2 indices (record c { imports = imports.now }) out.new.items) }
    ensures refused { IfErr result (λ e. e ≡ NotSpelled → (imports.now ≡ [] → ⊥) × ((text : List ℕ) → Spells imports_grammar imports.now text → ⊥)) }
{
    if imports.is_empty() {
        return Ok(());
    }
    let mut content = Vec::new(alloc);
    put_imports(imports, &mut content)?;
    put_section(2, &content, out)?;
    Ok(())
}

/// Writes the indices of the types of functions.
#[tactic(auto, using(crate::proofs::WriteSections::indices_written, crate::proofs::WriteSections::later))]
pub fn put_function_section(
    alloc: Global,
    functions: &[Function],
    out: &mut Vec<u8>,
) -> Result<(), AllocError>
    ensures { OnOk result ((c : Contents) → Written 2 [] c out.old.items → Written 3 (map type_index_of functions.now) c out.new.items) }
{
    if functions.is_empty() {
        return Ok(());
    }
    let mut content = Vec::new(alloc);
    put_type_indices(functions, &mut content)?;
    put_section(3, &content, out)
}

/// Writes the memories.
#[tactic(auto, using(crate::proofs::WriteSections::memories_written, crate::proofs::WriteSections::later))]
pub fn put_memory_section(
    alloc: Global,
    memories: &[Limits],
    out: &mut Vec<u8>,
) -> Result<(), AllocError>
    ensures { OnOk result ((indices : List ℕ) (c : Contents) → c.memories ≡ [] → Written 3 indices c out.old.items → Written 5 indices (record c { memories = memories.now }) out.new.items) }
{
    if memories.is_empty() {
        return Ok(());
    }
    let mut content = Vec::new(alloc);
    put_memories(memories, &mut content)?;
    put_section(5, &content, out)
}

/// Writes the globals.
#[tactic(auto, using(crate::proofs::WriteSections::globals_written, crate::proofs::WriteSections::later))]
pub fn put_global_section(
    alloc: Global,
    globals: &[ModuleGlobal],
    out: &mut Vec<u8>,
) -> Result<(), WriteFault>
    ensures written { OnOk result ((indices : List ℕ) (c : Contents) → c.globals ≡ [] → Written 5 indices c out.old.items → Written 6 indices (record c { globals = map global_contents globals.now }) out.new.items) }
    ensures refused { IfErr result (λ e. e ≡ NotSpelled → AllByRecursion IsInitSpelled (map global_contents globals.now) → ⊥) }
{
    if globals.is_empty() {
        return Ok(());
    }
    let mut content = Vec::new(alloc);
    put_globals(alloc, globals, &mut content)?;
    put_section(6, &content, out)?;
    Ok(())
}

/// Writes the exports.
#[tactic(auto, using(crate::proofs::WriteSections::exports_written, crate::proofs::WriteSections::later))]
pub fn put_export_section(
    alloc: Global,
    exports: &[Export],
    out: &mut Vec<u8>,
) -> Result<(), AllocError>
    ensures { OnOk result ((indices : List ℕ) (c : Contents) → c.exports ≡ [] → Written 6 indices c out.old.items → Written 7 indices (record c { exports = map export_contents exports.now }) out.new.items) }
{
    if exports.is_empty() {
        return Ok(());
    }
    let mut content = Vec::new(alloc);
    put_exports(exports, &mut content)?;
    put_section(7, &content, out)
}

/// Writes the code of functions.
#[tactic(auto, using(crate::proofs::WriteSections::codes_written, crate::proofs::WriteSections::later))]
pub fn put_code_section(
    alloc: Global,
    functions: &[Function],
    out: &mut Vec<u8>,
) -> Result<(), WriteFault>
    ensures written { OnOk result ((c : Contents) → c.functions ≡ [] → Written 7 (map type_index_of functions.now) c out.old.items → Written 10 (map type_index_of functions.now) (record c { functions = map function_contents functions.now }) out.new.items) }
    ensures refused { IfErr result (λ e. e ≡ NotSpelled → (functions.now ≡ [] → ⊥) × ((indices : List ℕ) (text : List ℕ) → Spells (functions_grammar indices) (map function_contents functions.now) text → ⊥)) }
{
    if functions.is_empty() {
        return Ok(());
    }
    let mut content = Vec::new(alloc);
    put_codes(alloc, functions, &mut content)?;
    put_section(10, &content, out)?;
    Ok(())
}
