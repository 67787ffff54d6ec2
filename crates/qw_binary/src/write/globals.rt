//! Globals (WebAssembly Core Specification 1.0, 5.5.9).

ghost use Rattle.std.specs.Prelude.{◌≡◌, IfErr, OnOk, map};
ghost use Rattle.std.specs.List.{AllByRecursion};
ghost use Rattle.qw_octet_grammar.specs.declared.write.WriteFault.TheVariants.{NotSpelled};
ghost use Rattle.qw_octet_grammar.specs.Vectors.{vector};
ghost use Rattle.qw_octet_grammar.specs.Writing.{Puts};
ghost use Rattle.qw_binary.specs.Types.{mutability};
ghost use Rattle.qw_binary.specs.Sections.{global as global_grammar};
ghost use Rattle.qw_binary.specs.Contents.{global_contents};
ghost use Rattle.qw_binary.specs.Inner.Parts.{IsInitSpelled};

use crate::write::expression::put_expression;
use crate::write::types::put_val_type;
use qw_module::module::Global as ModuleGlobal;
use qw_octet_grammar::write::{WriteFault, put_size};
use std::alloc::{AllocError, Global};

/// Writes whether a global may be set.
#[tactic(auto, using(crate::proofs::WriteCodes::puts_mutable, crate::proofs::WriteCodes::puts_constant_global))]
fn put_mutability(mutable: bool, out: &mut Vec<u8>) -> Result<(), AllocError>
    ensures { OnOk result (Puts mutability mutable out.old.items out.new.items) }
{
    if mutable {
        out.push(0x01)?;
        return Ok(());
    }
    out.push(0x00)?;
    Ok(())
}

/// Writes a global.
#[tactic(auto, using(crate::proofs::WriteSimple::puts_global))]
fn put_global(alloc: Global, global: &ModuleGlobal, out: &mut Vec<u8>) -> Result<(), WriteFault>
    ensures written { OnOk result (Puts global_grammar (global_contents global.now) out.old.items out.new.items) }
    ensures refused { IfErr result (λ e. e ≡ NotSpelled → IsInitSpelled (global_contents global.now) → ⊥) }
{
    put_val_type(global.ty, out)?;
    put_mutability(global.mutable, out)?;
    put_expression(alloc, &global.init, out)
}

/// Writes a vector of globals.
#[tactic(auto, using(qw_octet_grammar::proofs::WriteLaws::views_put))]
pub fn put_globals(
    alloc: Global,
    globals: &[ModuleGlobal],
    out: &mut Vec<u8>,
) -> Result<(), WriteFault>
    ensures written { OnOk result (Puts (vector global_grammar) (map global_contents globals.now) out.old.items out.new.items) }
    ensures refused { IfErr result (λ e. e ≡ NotSpelled → AllByRecursion IsInitSpelled (map global_contents globals.now) → ⊥) }
{
    put_size(globals.len(), out)?;
    for global in globals {
        put_global(alloc, global, out)?;
    }
    Ok(())
}
