//! The code of functions (WebAssembly Core Specification 1.0, 5.5.13).

ghost use Rattle.std.specs.Prelude.{◌≡◌, ℕ, List, IfErr, OnOk, map};
ghost use Rattle.qw_octet_grammar.specs.Grammar.{Spells};
ghost use Rattle.qw_octet_grammar.specs.declared.write.WriteFault.TheVariants.{NotSpelled};
ghost use Rattle.qw_octet_grammar.specs.Numbers.{u32 as u32_grammar};
ghost use Rattle.qw_octet_grammar.specs.Vectors.{vector};
ghost use Rattle.qw_octet_grammar.specs.Writing.{Puts};
ghost use Rattle.qw_binary.specs.Contents.{function_contents};
ghost use Rattle.qw_binary.specs.Sections.{locals_run, locals as locals_grammar, code, functions as functions_grammar};
ghost use Rattle.qw_binary.specs.Inner.Parts.{type_index_of};

use crate::read::functions::are_few;
use crate::write::expression::put_expression;
use crate::write::types::put_val_type;
use qw_module::module::{Function, Locals};
use qw_octet_grammar::write::{WriteFault, put_size, put_u32};
use std::alloc::{AllocError, Global};

/// Writes a run of locals of one type.
#[tactic(auto, using(crate::proofs::WriteSimple::puts_run))]
fn put_locals_run(run: Locals, out: &mut Vec<u8>) -> Result<(), AllocError>
    ensures { OnOk result (Puts locals_run run out.old.items out.new.items) }
{
    put_u32(run.count, out)?;
    put_val_type(run.ty, out)
}

/// Writes runs of locals, however many locals they have.
fn put_runs(runs: &[Locals], out: &mut Vec<u8>) -> Result<(), AllocError>
    ensures { OnOk result (Puts (vector locals_run) runs.now out.old.items out.new.items) }
{
    put_size(runs.len(), out)?;
    for run in runs {
        put_locals_run(*run, out)?;
    }
    Ok(())
}

/// Writes the locals of a function, which are spelled if they are fewer than 2^32.
#[tactic(auto, using(crate::proofs::WriteSimple::puts_locals))]
fn put_locals(runs: &[Locals], out: &mut Vec<u8>) -> Result<(), WriteFault>
    ensures written { OnOk result (Puts locals_grammar runs.now out.old.items out.new.items) }
    ensures refused { IfErr result (λ e. e ≡ NotSpelled → (text : List ℕ) → Spells locals_grammar runs.now text → ⊥) }
{
    if !are_few(runs) {
        return Err(WriteFault::NotSpelled);
    }
    put_runs(runs, out)?;
    Ok(())
}

/// Writes the code of a function behind its size.
#[tactic(auto, using(crate::proofs::WriteSimple::puts_code))]
fn put_code(alloc: Global, function: &Function, out: &mut Vec<u8>) -> Result<(), WriteFault>
    ensures written { OnOk result (Puts (code function.now.type_index) (function_contents function.now) out.old.items out.new.items) }
    ensures refused { IfErr result (λ e. e ≡ NotSpelled → (type_index : ℕ) (text : List ℕ) → Spells (code type_index) (function_contents function.now) text → ⊥) }
{
    let mut inner = Vec::new(alloc);
    put_locals(&function.locals, &mut inner)?;
    put_expression(alloc, &function.body, &mut inner)?;
    put_size(inner.len(), out)?;
    out.extend_from_slice(&inner)?;
    Ok(())
}

/// Writes the code of functions.
#[tactic(auto, using(crate::proofs::WriteSimple::codes_put))]
pub fn put_codes(alloc: Global, functions: &[Function], out: &mut Vec<u8>) -> Result<(), WriteFault>
    ensures written { OnOk result (Puts (functions_grammar (map type_index_of functions.now)) (map function_contents functions.now) out.old.items out.new.items) }
    ensures refused { IfErr result (λ e. e ≡ NotSpelled → (indices : List ℕ) (text : List ℕ) → Spells (functions_grammar indices) (map function_contents functions.now) text → ⊥) }
{
    put_size(functions.len(), out)?;
    for function in functions {
        put_code(alloc, function, out)?;
    }
    Ok(())
}

/// Writes the indices of the types of functions (5.5.6).
pub fn put_type_indices(functions: &[Function], out: &mut Vec<u8>) -> Result<(), AllocError>
    ensures { OnOk result (Puts (vector u32_grammar) (map type_index_of functions.now) out.old.items out.new.items) }
{
    put_size(functions.len(), out)?;
    for function in functions {
        put_u32(function.type_index, out)?;
    }
    Ok(())
}
