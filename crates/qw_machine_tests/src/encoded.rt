//! Modules that no octets spell aren't written.

use crate::modules::{BLOCK0, BLOCK1, add_function, plain_module};
use qw_binary::encode::encode;
use qw_module::instruction::Instr;
use qw_module::module::{Import, Module};
use qw_octet_grammar::write::WriteFault;
use std::alloc::Global;
use std::test::Fail;

/// No sequence, one that holds itself, one that stands twice, and two whose numbers are the wrong way round.
const SEQUENCES: [&[&[Instr]]; 4] = [
    &[],
    &[&[BLOCK0]],
    &[&[], &[BLOCK0, BLOCK0]],
    &[&[], &[], &[BLOCK1, BLOCK0]],
];

/// Imports of which one stands twice, at different types and at the same one.
const TWICE: [[Import; 2]; 2] = [
    [Import::Raise(0), Import::Raise(1)],
    [Import::Pages(0), Import::Pages(0)],
];

/// Fails where a module is written, or for another fault isn't.
fn check_not_spelled(alloc: Global, module: &Module) -> Result<(), Fail> {
    let fault = encode(alloc, module).err();
    if fault == Some(WriteFault::NotSpelled) {
        return Ok(());
    }
    Err(Fail::new(format_args!("{fault:?}")))
}

/// Modules that no octets spell: by their sequences, and those that import `raise` or `pages` twice.
#[test]
fn not_spelled(rt: HostRuntime) -> Result<(), Fail> {
    for &sequences in &SEQUENCES {
        let mut module = plain_module(rt.alloc(), &[])?;
        add_function(rt.alloc(), &mut module, 0, sequences)?;
        check_not_spelled(rt.alloc(), &module)?;
    }
    for imports in &TWICE {
        let module = plain_module(rt.alloc(), imports)?;
        check_not_spelled(rt.alloc(), &module)?;
    }
    Ok(())
}
