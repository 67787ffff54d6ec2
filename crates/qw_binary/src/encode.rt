//! `encode`: octets that spell a module.

ghost use Rattle.std.specs.Prelude.{◌≡◌, IfErr, IfOk};
ghost use Rattle.qw_octet_grammar.specs.declared.write.WriteFault.TheVariants.{NotSpelled};
ghost use Rattle.qw_binary.specs.Contents.{contents_of};
ghost use Rattle.qw_binary.specs.Modules.{IsSpelled, SpellsModule};

use crate::write::sections::{
    put_code_section, put_export_section, put_function_section, put_global_section,
    put_import_section, put_memory_section, put_type_section,
};
use qw_module::module::Module;
use qw_octet_grammar::write::WriteFault;
use std::alloc::Global;

/// Octets that spell the module: each section that holds something, once and in order, no custom section, and each number in the
/// least number of octets. Blocks may be nested as deeply as the module has them, since nothing calls itself.
///
/// # Errors
///
/// `NotSpelled` only where no octets spell the module: a body whose sequences don't have the numbers that a reader gives them, an
/// import twice, 2^32 locals or more. `NoMemory` anywhere; it is also the answer where a count or a size would be 2^32 or more.
pub fn encode(alloc: Global, module: &Module) -> Result<Vec<u8>, WriteFault>
    // What is written spells the module.
    ensures written { IfOk result (λ octets. SpellsModule (contents_of «module».now) octets.items) }
    // A module is refused only where no octets spell it.
    ensures refused { IfErr result (λ e. e ≡ NotSpelled → IsSpelled (contents_of «module».now) → ⊥) }
{
    let mut out = Vec::new(alloc);
    out.extend_from_slice(&[0x00, 0x61, 0x73, 0x6D, 0x01, 0x00, 0x00, 0x00])?;
    put_type_section(alloc, &module.types, &mut out)?;
    put_import_section(alloc, &module.imports, &mut out)?;
    put_function_section(alloc, &module.functions, &mut out)?;
    put_memory_section(alloc, &module.memories, &mut out)?;
    put_global_section(alloc, &module.globals, &mut out)?;
    put_export_section(alloc, &module.exports, &mut out)?;
    put_code_section(alloc, &module.functions, &mut out)?;
    Ok(out)
}
