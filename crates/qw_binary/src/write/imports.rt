//! Imports (WebAssembly Core Specification 1.0, 5.5.5).

ghost use Rattle.std.specs.Prelude.{◌≡◌, ℕ, true, List, IfErr, OnOk};
ghost use Rattle.qw_octet_grammar.specs.Grammar.{Spells};
ghost use Rattle.qw_octet_grammar.specs.declared.write.WriteFault.TheVariants.{NotSpelled};
ghost use Rattle.qw_octet_grammar.specs.Writing.{Puts};
ghost use Rattle.qw_module.specs.declared.module.Import.{Import};
ghost use Rattle.qw_binary.specs.Sections.{imported, is_among, names, function_import, described, import_behind, imports as imports_grammar};
ghost use Rattle.qw_binary.specs.Inner.Imported.{imported_of};

use crate::read::imports::Imported;
use crate::write::types::put_limits;
use qw_module::module::{Import, Limits};
use qw_octet_grammar::write::{WriteFault, put_name, put_size, put_u32};
use std::alloc::AllocError;

/// Writes the two names of an import, where it is not among those before it.
#[tactic(auto, using(crate::proofs::WriteSimple::puts_names))]
fn put_names(one: Imported, before: &[Import], out: &mut Vec<u8>) -> Result<(), WriteFault>
    ensures written { OnOk result (Puts (names before.now) (imported_of one) out.old.items out.new.items) }
    ensures refused { IfErr result (λ e. e ≡ NotSpelled → is_among (imported_of one) before.now ≡ true) }
{
    if one.is_among(before) {
        return Err(WriteFault::NotSpelled);
    }
    put_name("q", out)?;
    put_name(one.name(), out)?;
    Ok(())
}

/// Writes a function's kind and the index of its type.
#[tactic(auto, using(crate::proofs::WriteSimple::puts_function_import))]
fn put_function(type_index: u32, out: &mut Vec<u8>) -> Result<(), AllocError>
    ensures { OnOk result ((make : ℕ → Import) → Puts (function_import make) (make type_index) out.old.items out.new.items) }
{
    out.push(0x00)?;
    put_u32(type_index, out)
}

/// Writes the kind of an import, and what is imported.
#[tactic(auto, using(crate::proofs::WriteSimple::puts_memory_import))]
fn put_described(import: Import, out: &mut Vec<u8>) -> Result<(), AllocError>
    ensures { OnOk result (Puts (described (imported import)) import out.old.items out.new.items) }
{
    match import {
        Import::Memory(limits) => {
            out.push(0x02)?;
            put_limits(limits, out)
        }
        Import::Raise(type_index) | Import::Pages(type_index) => put_function(type_index, out),
    }
}

/// Writes an import behind those before it.
#[tactic(auto, using(crate::proofs::WriteSimple::puts_import))]
fn put_import(import: Import, before: &[Import], out: &mut Vec<u8>) -> Result<(), WriteFault>
    ensures written { OnOk result (Puts (import_behind before.now) import out.old.items out.new.items) }
    ensures refused { IfErr result (λ e. e ≡ NotSpelled → (text : List ℕ) → Spells (import_behind before.now) import text → ⊥) }
{
    put_names(Imported::of(import), before, out)?;
    put_described(import, out)?;
    Ok(())
}

/// Writes a vector of imports.
pub fn put_imports(imports: &[Import], out: &mut Vec<u8>) -> Result<(), WriteFault>
    ensures written { OnOk result (Puts imports_grammar imports.now out.old.items out.new.items) }
    ensures refused { IfErr result (λ e. e ≡ NotSpelled → (text : List ℕ) → Spells imports_grammar imports.now text → ⊥) }
{
    put_size(imports.len(), out)?;
    for place in 0..imports.len() {
        put_import(imports[place], imports.split_at(place).0, out)?;
    }
    Ok(())
}
